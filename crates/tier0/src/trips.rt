// Trips: which limits the rows as they came exceed.
ghost use Rattle.std.specs.Prelude.{◌≡◌, ◌+◌, ◌-◌, ◌*◌, ◌≤◌, ◌<◌, length, replicate};
ghost use Rattle.std.specs.Float.{binary64};
ghost use Rattle.checked.specs.Checked.{each};
ghost use Rattle.checked.specs.Finite.{+0};
ghost use Rattle.tier0.specs.Rule.{out_of_workspace, out_of_reach, trip_bits};
ghost use Rattle.tier0.specs.Chunk.{bends, jolts, some_of, large_at, further, trip_of, too_large};
ghost use Rattle.tier0.specs.declared.Difference.TheVariants.{Accel, Jerk};
ghost use Rattle.checked.specs.Of.{row_from, test_from};
ghost use Rattle.tier0.specs.Of.{steps_from};

use crate::measure::{armed, box_dims, raw_row, row_before};
use crate::{Checks, Difference, Stride};
use checked::{Row, Test};
use envelope::TripMask;

// WORKSPACE, where it is armed: past the edge of a disc, or beyond a wall on a shared coordinate.
pub(crate) fn out_of_workspace(s: Checks, a: &[f64]) -> Test
    ensures { result ≡ test_from (out_of_workspace binary64 s a.now) }
{
    if !armed(s, TripMask::WORKSPACE) {
        return Test {
            holds: false,
            sound: true,
        };
    }
    let shape = s.shape;
    let walls = s.walls;
    let n = box_dims(s);
    workspace::outside(shape, walls, a, n)
}

// REACH, where it is armed.
pub(crate) fn out_of_reach(s: Checks, pos: &[f64], a: &[f64]) -> Test
    ensures { result ≡ test_from (out_of_reach binary64 s pos.now a.now) }
{
    if !armed(s, TripMask::REACH) {
        return Test {
            holds: false,
            sound: true,
        };
    }
    let n = box_dims(s);
    let far = fmath::distance(a, pos, n);
    let sound = fmath::finite(far);
    Test {
        holds: s.reach_max < far,
        sound,
    }
}

// The mask of the checks that trip.
pub(crate) fn trip_bits(
    out: bool,
    fast: bool,
    bent: bool,
    jolted: bool,
    far: bool,
    close: bool,
) -> u32
    ensures { result ≡ trip_bits out fast bent jolted far close }
{
    let a = bits::weight(out, TripMask::WORKSPACE);
    let b = bits::weight(fast, TripMask::SPEED);
    let c = bits::weight(bent, TripMask::ACCEL);
    let d = bits::weight(jolted, TripMask::JERK);
    let e = bits::weight(far, TripMask::REACH);
    let f = bits::weight(close, TripMask::CONTACT);
    a + b + c + d + e + f
}

// The steps of the first h rows: the greatest, and which limits of a single step they exceed.
pub(crate) fn step_rows(s: Checks, slow: f64, q: [f64; 8], rows: &[f64], h: usize) -> Stride
    requires { (s.dim ≤ 8) × (h ≤ 64) × (h * s.dim ≤ length rows.now) }
    ensures { result ≡ steps_from binary64 s slow q rows.now h }
{
    let mut peak = 0.0;
    let mut fast = false;
    let mut close = false;
    let mut out = false;
    let mut told = true;
    let mut sound = true;
    for i in 0..h {
        let a = raw_row(rows, s.dim, i);
        let b = row_before(q, rows, s.dim, i);
        let n = fmath::distance(&a, &b, s.dim);
        peak = fmath::max(peak, n);
        fast = fast | (s.step_max < n);
        close = close | (slow < n);
        let beyond = out_of_workspace(s, &a);
        out = out | beyond.holds;
        told = told & beyond.sound;
        sound = sound & fmath::finite(n);
    }
    Stride {
        peak,
        fast,
        close,
        out: Test {
            holds: out,
            sound: told,
        },
        sound,
    }
}

// next - 2 here + before, on each of the first n coordinates.
// `bent` and `jolted` as one function over a closure were tried, and slower: about a tenth more for a chunk with ACCEL and JERK armed.
fn bent(next: &[f64; 8], here: &[f64; 8], before: &[f64; 8], n: usize) -> Row
    requires { n ≤ 8 }
    ensures { result ≡ row_from (each (bends binary64 next.now here.now before.now) (replicate 8 +0) n) }
{
    let mut r = [0.0; 8];
    let mut sound = true;
    for i in 0..n {
        let x = (next[i] - 2.0 * here[i]) + before[i];
        r[i] = x;
        sound = sound & fmath::finite(x);
    }
    Row { at: r, sound }
}

// second - 3 next + 3 here - before, likewise.
fn jolted(second: &[f64; 8], next: &[f64; 8], here: &[f64; 8], before: &[f64; 8], n: usize) -> Row
    requires { n ≤ 8 }
    ensures { result ≡ row_from (each (jolts binary64 second.now next.now here.now before.now) (replicate 8 +0) n) }
{
    let mut r = [0.0; 8];
    let mut sound = true;
    for i in 0..n {
        let x = ((second[i] - 3.0 * next[i]) + 3.0 * here[i]) - before[i];
        r[i] = x;
        sound = sound & fmath::finite(x);
    }
    Row { at: r, sound }
}

// ACCEL at row i.
fn bent_at(s: Checks, q: [f64; 8], rows: &[f64], i: usize) -> Test
    requires { (s.dim ≤ 8) × (i < 63) × (i * s.dim + s.dim ≤ length rows.now) × ((i + 1) * s.dim + s.dim ≤ length rows.now) }
    ensures { result ≡ test_from (large_at binary64 s Accel q rows.now i) }
{
    let next = raw_row(rows, s.dim, i + 1);
    let here = raw_row(rows, s.dim, i);
    let before = row_before(q, rows, s.dim, i);
    let d = bent(&next, &here, &before, s.dim);
    let at = d.at;
    let v = fmath::magnitude(&at, s.dim);
    let w = v * s.inv_dt2;
    let fine = fmath::finite(w);
    Test {
        holds: s.a_max < w,
        sound: d.sound & fine,
    }
}

// JERK at row i.
fn jolted_at(s: Checks, q: [f64; 8], rows: &[f64], i: usize) -> Test
    requires { (s.dim ≤ 8) × (i < 62) × (i * s.dim + s.dim ≤ length rows.now) × ((i + 1) * s.dim + s.dim ≤ length rows.now) × ((i + 2) * s.dim + s.dim ≤ length rows.now) }
    ensures { result ≡ test_from (large_at binary64 s Jerk q rows.now i) }
{
    let second = raw_row(rows, s.dim, i + 2);
    let next = raw_row(rows, s.dim, i + 1);
    let here = raw_row(rows, s.dim, i);
    let before = row_before(q, rows, s.dim, i);
    let d = jolted(&second, &next, &here, &before, s.dim);
    let at = d.at;
    let v = fmath::magnitude(&at, s.dim);
    let w = v * s.inv_dt3;
    let fine = fmath::finite(w);
    Test {
        holds: s.j_max < w,
        sound: d.sound & fine,
    }
}

// A difference at row i exceeds its limit. The rule `too_large` is over these two cases, and names `large_at`, `further` and `trip_of`.
fn large_at(s: Checks, d: Difference, q: [f64; 8], rows: &[f64], i: usize) -> Test
    requires { (s.dim ≤ 8) × (i + further d < 64) × ((i + further d) * s.dim + s.dim ≤ length rows.now) }
    ensures { result ≡ test_from (large_at binary64 s d q rows.now i) }
{
    match d {
        Difference::Accel => bent_at(s, q, rows, i),
        Difference::Jerk => jolted_at(s, q, rows, i),
    }
}

// How many rows after row i the difference at row i reads.
fn further(d: Difference) -> usize
    ensures { result ≡ further d }
{
    match d {
        Difference::Accel => 1,
        Difference::Jerk => 2,
    }
}

// The trip bit of a difference.
fn trip_of(d: Difference) -> u32
    ensures { result ≡ trip_of d }
{
    match d {
        Difference::Accel => TripMask::ACCEL,
        Difference::Jerk => TripMask::JERK,
    }
}

// A difference exceeds its limit at some of h rows.
fn large_rows(s: Checks, d: Difference, q: [f64; 8], rows: &[f64], h: usize) -> Test
    requires { (s.dim ≤ 8) × (h ≤ 64) × (h * s.dim ≤ length rows.now) }
    ensures { result ≡ test_from (some_of (large_at binary64 s d q rows.now) (h - further d)) }
{
    let n = further(d);
    let mut holds = false;
    let mut sound = true;
    for i in 0..h.saturating_sub(n) {
        let t = large_at(s, d, q, rows, i);
        holds = holds | t.holds;
        sound = sound & t.sound;
    }
    Test { holds, sound }
}

// A difference exceeds its limit at some of h rows, where it is armed.
pub(crate) fn too_large(s: Checks, d: Difference, q: [f64; 8], rows: &[f64], h: usize) -> Test
    requires { (s.dim ≤ 8) × (h ≤ 64) × (h * s.dim ≤ length rows.now) }
    ensures { result ≡ test_from (too_large binary64 s d q rows.now h) }
{
    if !armed(s, trip_of(d)) {
        return Test {
            holds: false,
            sound: true,
        };
    }
    large_rows(s, d, q, rows, h)
}
