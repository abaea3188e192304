// Scores: 25 numbers, f 12, z 12 and s; 2 counts, valid and fired.
ghost use Rattle.std.specs.Prelude.{◌≡◌};
ghost use Rattle.layout.specs.Scores.{marks_fit, scores_of, scores_flat, marks_flat};

use crate::places::{part, to_u32};
use conformal::Scores;

// Each count fits its field.
pub fn marks_fit(c: &[u64; 2]) -> bool
    ensures { result ≡ marks_fit c.now }
{
    (c[0] <= 4294967295) & (c[1] <= 4294967295)
}

// The scores that the arrays stand for.
pub fn scores_of(l: &[f64; 25], c: &[u64; 2]) -> Scores
    ensures { result ≡ scores_of l.now c.now }
{
    let f = part(l, 0);
    let z = part(l, 12);
    let valid = to_u32(c[0]);
    let fired = to_u32(c[1]);
    Scores {
        f,
        z,
        s: l[24],
        valid,
        fired,
    }
}

// Lays the scores out in the arrays.
pub fn put_scores(sc: Scores, l: &mut [f64; 25], c: &mut [u64; 2])
    ensures { (l.new ≡ scores_flat sc) × (c.new ≡ marks_flat sc) }
{
    let f = sc.f;
    let z = sc.z;
    *l = [
        f[0], f[1], f[2], f[3], f[4], f[5], f[6], f[7], f[8], f[9], f[10], f[11], z[0], z[1], z[2],
        z[3], z[4], z[5], z[6], z[7], z[8], z[9], z[10], z[11], sc.s,
    ];
    *c = [sc.valid as u64, sc.fired as u64];
}
