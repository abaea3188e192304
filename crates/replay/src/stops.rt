// Records of the brake: the forecast, and the rows that brake and hold.
use crate::config::{UNREAD, config};
use crate::record::{Numbers, Words, exact, header, part, rows_of};
use brake::BrakeOut;
use refusal::Refusal;
use sample::agrees;
use workspace::WallMasks;

// Whether an answer has the verdict, margin, stop distance and count of entries from word 110 on.
fn is_forecast(a: Result<BrakeOut, Refusal>, w: &Words, x: &Numbers) -> bool {
    match a {
        Ok(forecast) => agrees(
            &[exact(w[110]), x[111], x[112], exact(w[113])],
            &[
                exact(forecast.feasible as u64),
                forecast.margin,
                forecast.stop_dist,
                exact(forecast.count as u64),
            ],
        ),
        Err(_) => false,
    }
}

pub(crate) fn forecast_agrees(w: &Words, x: &Numbers) -> bool {
    let c = config(w, x);
    let pos = part(x, 58, w[57]);
    let vel = part(x, 67, w[66]);
    let k = header(0, w[76], w[0]);
    let rows = rows_of(x, 77, k);
    let from = w[109] as usize;
    let mut slack = [0.0; 32];
    let a = brake::brake_feasible(c, &UNREAD, &UNREAD, pos, vel, rows, k, from, &mut slack);
    is_forecast(a, w, x) & agrees(part(x, 114, 32), &slack)
}

// Whether a row was written, as it is kept.
fn is_sent(s: Result<WallMasks, Refusal>, out: &[f64], kept: &[f64]) -> bool {
    match s {
        Ok(_) => agrees(kept, out),
        Err(_) => false,
    }
}

pub(crate) fn rows_agree(w: &Words, x: &Numbers) -> bool {
    let c = config(w, x);
    let pos = part(x, 58, w[57]);
    let vel = part(x, 67, w[66]);
    let mut braked = [0.0; 8];
    let mut held = [0.0; 8];
    let brake = brake::brake_action(c, &UNREAD, &UNREAD, pos, vel, &[], &mut braked);
    let hold = brake::hold_action(c, &UNREAD, &UNREAD, pos, &[], &mut held);
    is_sent(brake, &braked, part(x, 75, 8)) & is_sent(hold, &held, part(x, 83, 8))
}
