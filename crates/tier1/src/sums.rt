// Sums over rows, in the units of the calibration, and the steps of rows as they came.
ghost use Rattle.std.specs.Prelude.{◌≡◌, ◌+◌, ◌*◌, ◌≤◌, ◌<◌, ℕ, Float, min, pos, length};
ghost use Rattle.std.specs.Float.{binary64};
ghost use Rattle.std.specs.Float.Ieee.{mul, of_int};
ghost use Rattle.checked.specs.Checked.{Checked, sum_from};
ghost use Rattle.checked.specs.Finite.{+0};
ghost use Rattle.tier1.specs.Rule.{row, sum_rows, gap, gaps, jolt, jolts, step_length, start_row, peak};
ghost use Rattle.checked.specs.Of.{reckoned_from};

use crate::Manifest;
use checked::Reckoned;

// A small count as a number.
pub(crate) fn count(n: usize) -> f64
    requires { n < 65536 }
    ensures { result ≡ of_int binary64 (pos n) }
{
    let k = n as u16;
    k as f64
}

// Row i and what follows it.
fn row(rows: &[f64], d: usize, i: usize) -> &[f64]
    requires { i * d ≤ length rows.now }
    ensures { result.now ≡ row rows.now d i }
{
    let from = i * d;
    &rows[from..]
}

// The squares of the numbers of the first n coordinates, added to a sum so far.
fn add_squares<F: Fn(usize) -> f64>(from: f64, n: usize, number: F) -> f64
    requires { (c : ℕ) → c < n → F.pre number c }
    ensures { (g : ℕ → Checked Float) → ((c : ℕ) (x : Float) → c < n → F.post number c x → mul binary64 x x ≡ (g c).value) → result ≡ (sum_from binary64 from g n).value }
{
    let mut s = from;
    for c in 0..n {
        let x = number(c);
        s += x * x;
    }
    s
}

// The squared differences of two rows, added to a sum so far.
fn row_gaps(m: Manifest, from: f64, a: &[f64], b: &[f64]) -> f64
    requires { (m.dim ≤ 8) × (m.dim ≤ length a.now) × (m.dim ≤ length b.now) }
    ensures { result ≡ (sum_from binary64 from (gap binary64 m a.now b.now) m.dim).value }
{
    add_squares(from, m.dim, |c| {
        let x = (a[c] - m.center[c]) * m.inverse[c];
        let y = (b[c] - m.center[c]) * m.inverse[c];
        x - y
    })
}

// The same for the first n rows of b and as many of a, from row k on.
pub(crate) fn squared_gaps(m: Manifest, a: &[f64], k: usize, b: &[f64], n: usize) -> f64
    requires { (m.dim ≤ 8) × (k + n ≤ 64) × ((k + n) * m.dim ≤ length a.now) × (n * m.dim ≤ length b.now) }
    ensures { result ≡ (sum_rows binary64 (gaps binary64 m a.now k b.now) m.dim n).value }
{
    let mut s = 0.0;
    for i in 0..n {
        s = row_gaps(m, s, row(a, m.dim, k + i), row(b, m.dim, i));
    }
    s
}

// The squared third differences of four rows, from the last back to the first, added to a sum so far.
fn row_jolts(
    m: Manifest,
    from: f64,
    third: &[f64],
    second: &[f64],
    next: &[f64],
    here: &[f64],
) -> f64
    requires { (m.dim ≤ 8) × (m.dim ≤ length third.now) × (m.dim ≤ length second.now) × (m.dim ≤ length next.now) × (m.dim ≤ length here.now) }
    ensures { result ≡ (sum_from binary64 from (jolt binary64 m third.now second.now next.now here.now) m.dim).value }
{
    add_squares(from, m.dim, |c| {
        let x = (third[c] - m.center[c]) * m.inverse[c];
        let y = (second[c] - m.center[c]) * m.inverse[c];
        let z = (next[c] - m.center[c]) * m.inverse[c];
        let w = (here[c] - m.center[c]) * m.inverse[c];
        ((x - 3.0 * y) + 3.0 * z) - w
    })
}

// The same for the first n rows, each with the three after it.
pub(crate) fn squared_jolts(m: Manifest, b: &[f64], n: usize) -> f64
    requires { (m.dim ≤ 8) × (n + 3 ≤ 64) × ((n + 3) * m.dim ≤ length b.now) }
    ensures { result ≡ (sum_rows binary64 (jolts binary64 m b.now) m.dim n).value }
{
    let d = m.dim;
    let mut s = 0.0;
    for i in 0..n {
        s = row_jolts(
            m,
            s,
            row(b, d, i + 3),
            row(b, d, i + 2),
            row(b, d, i + 1),
            row(b, d, i),
        );
    }
    s
}

// The lengths of the steps from each of the first n rows, summed.
pub(crate) fn step_lengths(m: Manifest, b: &[f64], n: usize) -> f64
    requires { (m.dim ≤ 8) × (1 + n ≤ 64) × ((1 + n) * m.dim ≤ length b.now) }
    ensures { result ≡ (sum_from binary64 +0 (step_length binary64 m b.now) n).value }
{
    let d = m.dim;
    let mut s = 0.0;
    for i in 0..n {
        let q = row_gaps(m, 0.0, row(b, d, 1 + i), row(b, d, i));
        s += root::sqrt(q);
    }
    s
}

// How many coordinates the action and a position of len numbers share.
pub(crate) fn box_dims(m: Manifest, len: usize) -> usize
    ensures { result ≡ min (min m.dim m.pos_dim) len }
{
    fmath::fewer(fmath::fewer(m.dim, m.pos_dim), len)
}

// What stands before row 0: the position on the shared coordinates, row 0 itself on the others.
pub(crate) fn start_row(m: Manifest, pos: &[f64], b: &[f64]) -> [f64; 8]
    requires { (m.dim ≤ 8) × (m.dim ≤ length b.now) }
    ensures { result ≡ start_row binary64 m pos.now b.now }
{
    let n = box_dims(m, pos.len());
    let mut q = fmath::padded(b, m.dim);
    fmath::put(pos, n, &mut q);
    q
}

// The greatest step of the first h rows of d numbers, where q stands before row 0. Each is tested, since a NaN drops out of
// the greatest.
pub(crate) fn peak(d: usize, q: [f64; 8], b: &[f64], h: usize) -> Reckoned
    requires { (0 < h) × (h ≤ 64) × (h * d ≤ length b.now) }
    ensures { result ≡ reckoned_from (peak binary64 d q b.now h) }
{
    let n = fmath::distance(b, &q, d);
    let mut most = fmath::max(0.0, n);
    let mut sound = fmath::finite(n);
    for i in 0..h - 1 {
        let x = fmath::distance(row(b, d, i + 1), row(b, d, i), d);
        most = fmath::max(most, x);
        sound = sound & fmath::finite(x);
    }
    Reckoned { value: most, sound }
}
