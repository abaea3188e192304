// Tier 1's state: the chunk before and the trail, each as it is laid out by itself; the 6 held features; 2 counts, have_prev and
// held_valid.
ghost use Rattle.std.specs.Prelude.{◌≡◌};
ghost use Rattle.layout.specs.State.{state_fits, state_of, held_marks};

use crate::chunks::{chunk_of, header_fits};
use crate::places::to_u32;
use crate::trails::trail_of;
use tier1::Tier1Rt;

// The chunk's counts fit, have_prev is a flag, and the bits of the held features fit their field.
pub fn state_fits(h: &[u64; 6], c: &[u64; 2]) -> bool
    ensures { result ≡ state_fits h.now c.now }
{
    let chunk = header_fits(h);
    chunk & (c[0] <= 1) & (c[1] <= 4294967295)
}

// The state that the arrays stand for.
pub fn state_of(
    l: &[f64; 512],
    h: &[u64; 6],
    p: &[f64; 256],
    t: &[u64; 2],
    f: &[f64; 6],
    c: &[u64; 2],
) -> Tier1Rt
    ensures { result ≡ state_of l.now h.now p.now t.now f.now c.now }
{
    let prev = chunk_of(l, h);
    let trail = trail_of(p, t);
    let held_valid = to_u32(c[1]);
    Tier1Rt {
        prev,
        have_prev: c[0] == 1,
        trail,
        held: *f,
        held_valid,
    }
}

// Lays the held features and their counts out in the arrays.
pub fn put_held(
    held: [f64; 6],
    have_prev: bool,
    held_valid: u32,
    f: &mut [f64; 6],
    c: &mut [u64; 2],
)
    ensures { (f.new ≡ held) × (c.new ≡ held_marks have_prev held_valid) }
{
    *f = held;
    *c = [have_prev as u64, held_valid as u64];
}
