// The pull: a row that is too far from a point is moved towards it, to just inside the limit.
#![tactic(auto)]

ghost use Rattle.std.specs.Prelude.{◌≡◌, ◌≤◌, length};
ghost use Rattle.std.specs.Float.{binary64};
ghost use Rattle.checked.specs.Checked.{each};
ghost use Rattle.checked.specs.Of.{row_from};
ghost use Rattle.pull.specs.Rule.{towards, shortened, pulled};

use checked::Row;

// The factor aims inside the limit by 2^-36 of it, to leave room for rounding. That the row then passes is not promised (R5.12).
const LEASH_SHRINK: f64 = 1.0 - 1.0 / 68719476736.0;

// The row, each of its first n coordinates the part s of the way from q to it.
fn moved_toward(s: f64, q: &[f64], n: usize, a: [f64; 8]) -> Row
    requires { (n ≤ 8) × (n ≤ length q.now) }
    ensures { result ≡ row_from (each (towards binary64 s q.now a) a n) }
{
    let mut r = a;
    let mut sound = true;
    for i in 0..n {
        let x = q[i] + (a[i] - q[i]) * s;
        r[i] = x;
        sound = sound & fmath::finite(x);
    }
    Row { at: r, sound }
}

// The row shortened towards q, from which it is so far.
fn shortened(most: f64, far: f64, q: &[f64], n: usize, a: [f64; 8]) -> Row
    requires { (n ≤ 8) × (n ≤ length q.now) }
    ensures { result ≡ row_from (shortened binary64 most far q.now n a) }
{
    let short = most * LEASH_SHRINK;
    let s = short / far;
    let fine = fmath::finite(short);
    let good = fmath::finite(s);
    let r = moved_toward(s, q, n, a);
    let at = r.at;
    Row {
        at,
        sound: fine & (good & r.sound),
    }
}

// The row pulled towards q on its first n coordinates, where it is further from it than `most`. Where it or q has fewer, their distance is
// a NaN: the row stays, and is not sound.
pub fn pulled(most: f64, q: &[f64], n: usize, a: [f64; 8]) -> Row
    ensures { result ≡ row_from (pulled binary64 most q.now n a) }
{
    let far = fmath::distance(&a, q, n);
    let fine = fmath::finite(far);
    if most < far {
        let r = shortened(most, far, q, n, a);
        let at = r.at;
        return Row {
            at,
            sound: fine & r.sound,
        };
    }
    Row { at: a, sound: fine }
}
