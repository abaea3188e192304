// Records of the float helpers and of the time bin.
use crate::record::{Numbers, Words, exact, part};
use layout::places::to_u32;
use refusal::Refusal;
use sample::agrees;

// Whether an answer is the number kept.
fn is_number(a: Result<f64, Refusal>, kept: f64) -> bool {
    match a {
        Ok(x) => agrees(&[kept], &[x]),
        Err(_) => false,
    }
}

pub(crate) fn sqrt_agrees(x: &Numbers) -> bool {
    is_number(fmath::sqrt(x[0]), x[1])
}

pub(crate) fn norm_agrees(w: &Words, x: &Numbers) -> bool {
    is_number(fmath::norm(part(x, 2, w[1]), w[0] as usize), x[12])
}

pub(crate) fn dist_agrees(w: &Words, x: &Numbers) -> bool {
    is_number(
        fmath::dist(part(x, 2, w[1]), part(x, 13, w[12]), w[0] as usize),
        x[23],
    )
}

pub(crate) fn time_bin_agrees(w: &Words) -> bool {
    match conformal::time_bin(to_u32(w[0]), to_u32(w[1])) {
        Ok(k) => agrees(&[exact(w[2])], &[exact(k as u64)]),
        Err(_) => false,
    }
}
