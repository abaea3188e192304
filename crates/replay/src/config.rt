// A record's configuration, and the records of `derive`.
use crate::record::{Numbers, Words, part};
use envelope::FuseConfig;
use fmath::put;
use refusal::Refusal;
use sample::agrees;

// The numbers of a flat configuration: limits, brake and the first zone, then the norm, then the box; tau, the further zones and the disc are not in the record and stay 0.
fn numbers(x: &Numbers) -> [f64; 53] {
    let mut n = [0.0; 53];
    let all: &mut [f64] = &mut n;
    put(part(x, 14, 11), 11, all);
    put(part(x, 41, 16), 16, &mut all[11..]);
    put(part(x, 25, 16), 16, &mut all[27..]);
    n
}

// Its counts and codes; those of a calibration and of further zones are 0, and so are the shape's, which is the box, and the gripper's, which is the mode of the Rust. The choice for an absent camera is the one that answers as the Rust does: no zone.
fn counts(w: &Words) -> [u64; 35] {
    [
        w[0], w[1], w[2], w[3], w[9], w[6], w[7], w[8], w[10], w[11], w[12], w[13], 0, 0, 0, 0, 0,
        0, 0, 0, w[4], w[5], 0, 0, 0, 0, 1, 0, 0, 0, 0, 0, 0, 0, 0,
    ]
}

// Either table of a calibration that is not there.
pub(crate) const UNREAD: [f64; 192] = [0.0; 192];

// The configuration that a record begins with. It has no calibration.
pub(crate) fn config(w: &Words, x: &Numbers) -> FuseConfig {
    let n = numbers(x);
    let c = counts(w);
    layout::config::config_of(&n, &c)
}

// Whether a configuration is accepted, and these are the numbers kept as derived from it.
fn is_derived(judged: Result<(), Refusal>, derived: &[f64; 29], x: &Numbers) -> bool {
    judged.is_ok() & agrees(part(x, 57, 29), derived)
}

pub(crate) fn derive_agrees(w: &Words, x: &Numbers) -> bool {
    let c = config(w, x);
    let compiled = envelope::compile(c, &UNREAD, &UNREAD);
    let mut derived = [0.0; 29];
    layout::config::put_derived(compiled.derived, &mut derived);
    is_derived(compiled.judged, &derived, x)
}
