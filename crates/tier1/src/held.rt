// The six features of a chunk, which are held until the next one.
ghost use Rattle.std.specs.Prelude.{◌≡◌, true, ◌+◌, ◌*◌, ◌≤◌, ◌<◌, leb, ltb, length};
ghost use Rattle.std.specs.Float.{binary64};
ghost use Rattle.checked.specs.Checked.{pure};
ghost use Rattle.checked.specs.Finite.{+0};
ghost use Rattle.tier1.specs.Rule.{box_dims, tce, acc, acm_neg, njr, reach, speed_peak, overlap, boundary_at, if_there, boundary, boundary_bits};
ghost use Rattle.bits.specs.Bits.{bits_where};
ghost use Rattle.checked.specs.Of.{reckoned_from};
ghost use Rattle.tier1.specs.Of.{pair_from, met_from, boundary_from};

use crate::sums::{box_dims, count, peak, squared_gaps, squared_jolts, start_row, step_lengths};
use crate::{EPS, Kept, Manifest, Pair, SixFeatures};
use checked::Reckoned;
use conformal::Feat;

// The weights of the held features' bits.
const TCE: u32 = 1 << Feat::TCE;

const ACC: u32 = 1 << Feat::ACC;

const ACM_NEG: u32 = 1 << Feat::ACM_NEG;

const NJR: u32 = 1 << Feat::NJR;

const REACH: u32 = 1 << Feat::REACH;

const SPEED_PEAK: u32 = 1 << Feat::SPEED_PEAK;

// How many rows a new chunk, emitted at t with h rows of d numbers, shares with the one before.
fn overlap(k: Kept, t: u32, h: usize, d: usize) -> usize
    ensures { result ≡ overlap k t h d }
{
    if !(k.there & (k.dim == d) & (k.t_emit <= t)) {
        return 0;
    }
    let s = (t - k.t_emit) as usize;
    if k.horizon < s {
        return 0;
    }
    fmath::fewer(k.horizon - s, h)
}

// A feature that is not there.
pub(crate) fn absent() -> Reckoned
    ensures { result ≡ reckoned_from (pure +0) }
{
    Reckoned {
        value: 0.0,
        sound: true,
    }
}

// Two that are not there.
fn absent_pair() -> Pair
    ensures { result ≡ pair_from (pure +0) (pure +0) }
{
    Pair {
        first: 0.0,
        second: 0.0,
        sound: true,
    }
}

// Tce and Acc of l rows of b and as many of the chunk before, a, from row k on. The divisor is tested, since a quotient hides it.
fn matched(m: Manifest, a: &[f64], k: usize, b: &[f64], l: usize) -> Pair
    requires { (m.dim ≤ 8) × (0 < l) × (k + l ≤ 64) × ((k + l) * m.dim ≤ length a.now) × (l * m.dim ≤ length b.now) }
    ensures { result ≡ pair_from (tce binary64 m a.now k b.now l) (acc binary64 m a.now k b.now l) }
{
    let num = squared_gaps(m, a, k, b, l);
    let den = squared_gaps(m, b, 1, b, l - 1) + EPS;
    let n = count(l * m.dim);
    let first = root::sqrt(num / n);
    let second = root::sqrt(num / den);
    let p = fmath::finite(first);
    let q = fmath::finite(den);
    let r = fmath::finite(second);
    Pair {
        first,
        second,
        sound: p & (q & r),
    }
}

// The same for a chunk of h rows, emitted at t, where two rows or more overlap.
fn met(m: Manifest, k: Kept, a: &[f64], t: u32, b: &[f64], h: usize) -> Pair
    requires { (m.dim ≤ 8) × (h * m.dim ≤ length b.now) × (k.there ≡ true → (k.horizon ≤ 64) × (k.horizon * k.dim ≤ length a.now)) }
    ensures { result ≡ met_from binary64 m k a.now t b.now h }
{
    let l = overlap(k, t, h, m.dim);
    if l < 2 {
        return absent_pair();
    }
    let s = (t - k.t_emit) as usize;
    matched(m, a, s, b, l)
}

// AcmNeg of h rows: the mean step, negated.
fn acm_neg(m: Manifest, b: &[f64], h: usize) -> Reckoned
    requires { (m.dim ≤ 8) × (h ≤ 64) × (h * m.dim ≤ length b.now) }
    ensures { result ≡ reckoned_from (if_there (leb 2 h) (acm_neg binary64 m b.now h)) }
{
    if h < 2 {
        return absent();
    }
    let n = h - 1;
    let s = step_lengths(m, b, n);
    let value = -(s / count(n));
    let sound = fmath::finite(value);
    Reckoned { value, sound }
}

// Njr of h rows: the mean squared third difference over the mean squared first one.
fn njr(m: Manifest, b: &[f64], h: usize) -> Reckoned
    requires { (m.dim ≤ 8) × (h ≤ 64) × (h * m.dim ≤ length b.now) }
    ensures { result ≡ reckoned_from (if_there (leb 4 h) (njr binary64 m b.now h)) }
{
    if h < 4 {
        return absent();
    }
    let num = squared_jolts(m, b, h - 3);
    let den = squared_gaps(m, b, 1, b, h - 1);
    let under = EPS + den / count(h - 1);
    let value = num / count(h - 3) / under;
    let p = fmath::finite(under);
    let q = fmath::finite(value);
    Reckoned {
        value,
        sound: p & q,
    }
}

// Reach: the distance of row 0 from the position, where they share a coordinate.
fn reach(m: Manifest, pos: &[f64], b: &[f64]) -> Reckoned
    ensures { result ≡ reckoned_from (if_there (ltb 0 (box_dims m pos.now)) (reach binary64 m pos.now b.now)) }
{
    let n = box_dims(m, pos.len());
    if 0 < n {
        let far = fmath::distance(b, pos, n);
        let value = far / m.iso;
        let sound = fmath::finite(value);
        return Reckoned { value, sound };
    }
    absent()
}

// SpeedPeak: the greatest step of h rows.
fn speed_peak(m: Manifest, pos: &[f64], b: &[f64], h: usize) -> Reckoned
    requires { (m.dim ≤ 8) × (0 < h) × (h ≤ 64) × (h * m.dim ≤ length b.now) }
    ensures { result ≡ reckoned_from (speed_peak binary64 m pos.now b.now h) }
{
    let q = start_row(m, pos, b);
    let p = peak(m.dim, q, b, h);
    let value = p.value / m.iso;
    let fine = fmath::finite(value);
    Reckoned {
        value,
        sound: p.sound & fine,
    }
}

// The bits of the features of h rows, of which l overlap, with n shared coordinates.
fn boundary_bits(l: usize, h: usize, n: usize) -> u32
    ensures { result ≡ bits_where (boundary_at l h n) 6 }
{
    let a = bits::weight(2 <= l, TCE);
    let b = bits::weight(2 <= l, ACC);
    let c = bits::weight(2 <= h, ACM_NEG);
    let d = bits::weight(4 <= h, NJR);
    let e = bits::weight(0 < n, REACH);
    a + b + c + d + e + SPEED_PEAK
}

// All six features of a chunk of h rows, b, emitted at t, after the one with the rows a.
pub(crate) fn boundary(
    m: Manifest,
    k: Kept,
    a: &[f64],
    pos: &[f64],
    t: u32,
    h: usize,
    b: &[f64],
) -> SixFeatures
    requires { (m.dim ≤ 8) × (0 < h) × (h ≤ 64) × (h * m.dim ≤ length b.now) × (k.there ≡ true → (k.horizon ≤ 64) × (k.horizon * k.dim ≤ length a.now)) }
    ensures { result ≡ boundary_from (boundary binary64 m k a.now pos.now t h b.now) (boundary_bits m k pos.now t h) }
{
    let l = overlap(k, t, h, m.dim);
    let n = box_dims(m, pos.len());
    let valid = boundary_bits(l, h, n);
    let u = met(m, k, a, t, b, h);
    let w = acm_neg(m, b, h);
    let x = njr(m, b, h);
    let y = reach(m, pos, b);
    let z = speed_peak(m, pos, b, h);
    let held = [u.first, u.second, w.value, x.value, y.value, z.value];
    SixFeatures {
        held,
        valid,
        sound: u.sound & (w.sound & (x.sound & (y.sound & z.sound))),
    }
}
