// Records of tier 0: the check of an action, and of a chunk.
use crate::config::{UNREAD, config};
use crate::record::{Numbers, Words, exact, header, part, rows_of};
use refusal::Refusal;
use sample::agrees;
use tier0::Tier0Out;

// Whether an answer has the trips, clamped dims and peak speed kept. Which walls moved the rows the sample, which is the Rust's, does not say.
fn is_check(a: Result<Tier0Out, Refusal>, trips: u64, dims: u64, peak: f64) -> bool {
    match a {
        Ok(found) => agrees(
            &[exact(trips), exact(dims), peak],
            &[
                found.trips as f64,
                found.clamped_dims as f64,
                found.peak_speed,
            ],
        ),
        Err(_) => false,
    }
}

pub(crate) fn check_action_agrees(w: &Words, x: &Numbers) -> bool {
    let c = config(w, x);
    let pos = part(x, 58, w[57]);
    let aux = part(x, 67, w[66]);
    let prev = part(x, 75, w[0]);
    let act = part(x, 83, w[0]);
    let mut out = [0.0; 8];
    let a = tier0::check_action(c, &UNREAD, &UNREAD, pos, aux, prev, act, &mut out);
    is_check(a, w[91], w[92], x[93]) & agrees(part(x, 94, 8), &out)
}

pub(crate) fn check_chunk_agrees(w: &Words, x: &Numbers) -> bool {
    let c = config(w, x);
    let pos = part(x, 58, w[57]);
    let aux = part(x, 67, w[66]);
    let k = header(0, w[76], w[0]);
    let rows = rows_of(x, 77, k);
    let mut out = [0.0; 32];
    let a = tier0::check_chunk(c, &UNREAD, &UNREAD, pos, aux, rows, k, &mut out);
    is_check(a, w[109], w[110], x[111]) & agrees(part(x, 112, 32), &out)
}
