// The helpers on the decision path, for floats: tests, least, greatest, clamp, root, norm and dist; for counts and rows: fewer, put and padded.
#![tactic(auto)]

ghost use Rattle.std.specs.Prelude.{min, ◌≡◌, ◌<◌, ℕ, [], ◌∷◌, length};
ghost use Rattle.std.specs.Float.{binary64};
ghost use Rattle.checked.specs.Each.{at, over};
ghost use Rattle.checked.specs.Row.{padded};
ghost use Rattle.fmath.specs.Norm.{norm, dist, RootOfSquares};
ghost use Rattle.fmath.specs.Answer.{some_lent_not_finite, sqrt_answer, norm_answer, dist_answer};
ghost use Rattle.checked.specs.Finite.{finite, above_zero, not_below_zero, all_finite, all_above_zero};
ghost use Rattle.checked.specs.Least.{lesser, greater};
ghost use Rattle.fmath.specs.Clamp.{sided};

use refusal::Refusal;

// A number between two walls, and which of them moved it: -1 where lo raised it, 1 where hi lowered it, 0 where neither did, as `lictor_clamp_side` gives C.
#[derive(Clone, Copy)]
pub struct Sided {
    pub value: f64,
    pub side: i64,
}

// Neither a NaN nor an infinity.
pub fn finite(x: f64) -> bool
    ensures { result ≡ finite x }
{
    let inf = 1.0 / 0.0;
    (x < inf) & (-inf < x)
}

// Finite and above zero.
pub fn above_zero(x: f64) -> bool
    ensures { result ≡ above_zero x }
{
    (0.0 < x) & finite(x)
}

// Finite and not below zero.
pub fn not_below_zero(x: f64) -> bool
    ensures { result ≡ not_below_zero x }
{
    (0.0 <= x) & finite(x)
}

// Each of the first n numbers is there and is finite. No early exit, so that the loop vectorises.
pub fn all_finite(v: &[f64], n: usize) -> bool
    ensures { result ≡ all_finite v.now n }
{
    if v.len() < n {
        return false;
    }
    let mut ok = true;
    for i in 0..n {
        ok = ok & finite(v[i]);
    }
    ok
}

// Whether some number of three slices is not finite.
pub fn some_not_finite(a: &[f64], b: &[f64], c: &[f64]) -> bool
    ensures { result ≡ some_lent_not_finite (a.now ∷ b.now ∷ c.now ∷ []) }
{
    let k = all_finite(a, a.len());
    let l = all_finite(b, b.len());
    let m = all_finite(c, c.len());
    !k | !l | !m
}

// Each of the first n numbers is there, is finite and is above zero. Each test has its own running answer, which is what
// lets the compiled loop be quick: one function for this and `all_finite`, over a closure, was tried, and slower than this form.
pub fn all_above_zero(v: &[f64], n: usize) -> bool
    ensures { result ≡ all_above_zero v.now n }
{
    if v.len() < n {
        return false;
    }
    let mut above = true;
    let mut real = true;
    for i in 0..n {
        above = above & (0.0 < v[i]);
        real = real & finite(v[i]);
    }
    above & real
}

// The lesser of two counts.
pub fn fewer(a: usize, b: usize) -> usize
    ensures { result ≡ min a b }
{
    a.min(b)
}

// Writes the first n numbers of from over the first of out, as many as both have; the rest of out stays.
pub fn put(from: &[f64], n: usize, out: &mut [f64])
    ensures { out.new ≡ over (at from.now) out.old (min n (min (length from.now) (length out.old))) }
{
    let there = fewer(from.len(), out.len());
    let count = fewer(n, there);
    for i in 0..count {
        out[i] = from[i];
    }
}

// The first n numbers as a row of eight, as many as there are and as it holds, and 0.0 past them.
pub fn padded(a: &[f64], n: usize) -> [f64; 8]
    ensures { result ≡ padded a.now (min n (min (length a.now) 8)) }
{
    let mut r = [0.0; 8];
    put(a, n, &mut r);
    r
}

// The first where it is strictly less, else the second.
pub fn min(a: f64, b: f64) -> f64
    ensures { result ≡ lesser a b }
{
    if a < b { a } else { b }
}

// The first where it is strictly greater, else the second.
pub fn max(a: f64, b: f64) -> f64
    ensures { result ≡ greater a b }
{
    if a > b { a } else { b }
}

// lo below lo, hi above hi, else x itself, with its side. A number that touches a wall is not moved.
pub fn clamp(x: f64, lo: f64, hi: f64) -> Sided
    ensures { result ≡ sided x lo hi }
{
    if x < lo {
        return Sided {
            value: lo,
            side: -1,
        };
    }
    if x > hi {
        Sided { value: hi, side: 1 }
    } else {
        Sided { value: x, side: 0 }
    }
}

// The root, to nearest; 13 below zero, at an infinity and at a NaN.
pub fn sqrt(x: f64) -> Result<f64, Refusal>
    ensures { result ≡ sqrt_answer binary64 x }
{
    let root = root::sqrt(x);
    if finite(root) {
        return Ok(root);
    }
    Err(Refusal::of(Refusal::COMPUTED))
}

// The root of the squares of n numbers, summed in their order.
fn root_of_squares<F: Fn(usize) -> f64>(n: usize, side: F) -> f64
    requires { (j : ℕ) → j < n → F.pre side j }
    ensures { RootOfSquares (F.post side) n result }
{
    let mut s = 0.0;
    for j in 0..n {
        let d = side(j);
        s += d * d;
    }
    root::sqrt(s)
}

// The length of the first n coordinates. It is finite exactly where each number on the way to it is, and a NaN where there are fewer.
pub fn magnitude(v: &[f64], n: usize) -> f64
    ensures { result ≡ (norm binary64 v.now n).value }
{
    if v.len() < n {
        return 0.0 / 0.0;
    }
    root_of_squares(n, |j| v[j])
}

// The distance over the first n coordinates, likewise.
pub fn distance(a: &[f64], b: &[f64], n: usize) -> f64
    ensures { result ≡ (dist binary64 a.now b.now n).value }
{
    if a.len() < n {
        return 0.0 / 0.0;
    }
    if b.len() < n {
        return 0.0 / 0.0;
    }
    root_of_squares(n, |j| a[j] - b[j])
}

// The length of the first n coordinates; 11 where there are fewer, 12 where any number of the slice is not finite, 13 where a computed one is not.
pub fn norm(v: &[f64], n: usize) -> Result<f64, Refusal>
    ensures { result ≡ norm_answer binary64 v.now n }
{
    if v.len() < n {
        return Err(Refusal::of(Refusal::SHORT));
    }
    if !all_finite(v, v.len()) {
        return Err(Refusal::of(Refusal::NOT_FINITE));
    }
    let length = magnitude(v, n);
    if finite(length) {
        return Ok(length);
    }
    Err(Refusal::of(Refusal::COMPUTED))
}

// The distance over the first n coordinates, with the refusals of `norm` for both slices.
pub fn dist(a: &[f64], b: &[f64], n: usize) -> Result<f64, Refusal>
    ensures { result ≡ dist_answer binary64 a.now b.now n }
{
    if (a.len() < n) | (b.len() < n) {
        return Err(Refusal::of(Refusal::SHORT));
    }
    let fine = all_finite(a, a.len()) & all_finite(b, b.len());
    if !fine {
        return Err(Refusal::of(Refusal::NOT_FINITE));
    }
    let far = distance(a, b, n);
    if finite(far) {
        return Ok(far);
    }
    Err(Refusal::of(Refusal::COMPUTED))
}
