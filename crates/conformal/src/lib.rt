// Module 8: scores held against a calibration. Standardise, aggregate over the gate, trip strictly; and the time bin.
#![tactic(auto)]

ghost use Rattle.std.specs.Prelude.{◌≡◌, not, ◌<◌, ◌-◌, min};
ghost use Rattle.std.specs.Float.{binary64};
ghost use Rattle.std.specs.Float.Ieee.{is_nan};
ghost use Rattle.bits.specs.Bits.{bit};
ghost use Rattle.refusal.specs.Order.{judged_by};
ghost use Rattle.conformal.specs.Rule.{live, standard, standards, aggregate, fired_bits};
ghost use Rattle.conformal.specs.Refusals.{sizes_ok, numbers_ok, features_ok, scores_ok};
ghost use Rattle.conformal.specs.Answer.{judged, scored, standardised, aggregated, tripped, time_bin_of};
ghost use Rattle.checked.specs.Of.{reckoned_from};
ghost use Rattle.conformal.specs.Of.{tables, counted_from, standards_from, term_from};

use checked::Reckoned;
use refusal::Refusal;

// The bits of the twelve features: places in the arrays and in the words of bits that C shares, so they are numbers.
#[derive(Clone, Copy)]
pub struct Feat {}

impl Feat {
    pub const TCE: usize = 0;

    pub const ACC: usize = 1;

    pub const ACM_NEG: usize = 2;

    pub const NJR: usize = 3;

    pub const REACH: usize = 4;

    pub const SPEED_PEAK: usize = 5;

    pub const PATH_INEFF: usize = 6;

    // Not computed: `features` never sets it, and no calibration may name it.
    pub const STALL: usize = 7;

    pub const EXT0: usize = 8;

    pub const EXT1: usize = 9;

    pub const EXT2: usize = 10;

    pub const EXT3: usize = 11;

    pub const COUNT: usize = 12;
}

// The features f, standardised to z, with their aggregate s; `valid` and `fired` have a bit for each feature.
#[derive(Clone, Copy)]
pub struct Scores {
    pub f: [f64; 12],
    pub z: [f64; 12],
    pub s: f64,
    pub valid: u32,
    pub fired: u32,
}

// The first n_terms terms count, each the bits of the features that it joins.
#[derive(Clone, Copy)]
pub struct GateSpec {
    pub n_terms: u8,
    pub terms: [u32; 8],
}

impl GateSpec {
    pub const DISARMED: Self = GateSpec {
        n_terms: 0,
        terms: [0; 8],
    };
}

// Its two tables are lent beside it: center and scale of feature j in time bin b stand at b * 12 + j. A struct of both references would cost each entry its plain
// reading, on which the theorems `one-NAME` rest.
#[derive(Clone, Copy)]
pub struct Calibration {
    pub mask: u32,
    pub gate: GateSpec,
    pub tau: f64,
}

// New scores, or the ones that came in with the refusal.
#[derive(Clone, Copy)]
pub struct Scored {
    pub refusal: Refusal,
    pub scores: Scores,
}

// What is judged of the terms that count: that none has a bit above 11, and that none names Stall.
#[derive(Clone, Copy)]
struct Counted {
    named: bool,
    without_stall: bool,
}

// The z of all features; `sound` says that each number computed on the way is finite, and z is given in either case (`standards_from`).
#[derive(Clone, Copy)]
struct AllZ {
    z: [f64; 12],
    sound: bool,
}

// A term: whether each feature that it joins is live, and the least of their z.
#[derive(Clone, Copy)]
struct Joined {
    live: bool,
    least: f64,
}

// ---- what is judged

// Bit j of w.
fn bit(w: u32, j: usize) -> bool
    requires { j < 12 }
    ensures { result ≡ bit w j }
{
    (w >> j) % 2 == 1
}

// The terms that count, each looked at once; those past the count are not.
fn counted_terms(gate: GateSpec) -> Counted
    ensures { result ≡ counted_from gate }
{
    let n = gate.n_terms as usize;
    let mut named = true;
    let mut without_stall = true;
    for (i, &bits) in gate.terms.iter().enumerate() {
        let stall = bit(bits, Feat::STALL);
        named = named & ((n <= i) | (bits < 4096));
        without_stall = without_stall & ((n <= i) | !stall);
    }
    Counted {
        named,
        without_stall,
    }
}

// Refusal 1 of a calibration: at most 8 terms, no bit above 11 in a counted one or the mask.
pub fn sizes_ok(cal: Calibration) -> bool
    ensures { result ≡ sizes_ok cal }
{
    let gate = cal.gate;
    let terms = counted_terms(gate);
    (gate.n_terms <= 8) & (cal.mask < 4096) & terms.named
}

// Refusal 17 of a calibration: Stall, which is not computed, neither in the mask nor in a counted term.
pub fn features_ok(cal: Calibration) -> bool
    ensures { result ≡ features_ok cal }
{
    let terms = counted_terms(cal.gate);
    let stall = bit(cal.mask, Feat::STALL);
    !stall & terms.without_stall
}

// Refusal 2 of a calibration: tau and centers finite, scales finite and above 0.
pub fn numbers_ok(cal: Calibration, center: &[f64; 192], scale: &[f64; 192]) -> bool
    ensures { result ≡ numbers_ok cal (tables center.now scale.now) }
{
    let a = fmath::finite(cal.tau);
    let b = fmath::all_finite(center, 192);
    let c = fmath::all_above_zero(scale, 192);
    a & b & c
}

// A number or an infinity.
fn not_nan(x: f64) -> bool
    ensures { result ≡ not (is_nan x) }
{
    x == x
}

// Refusal 12 of scores.
pub fn scores_ok(scores: Scores) -> bool
    ensures { result ≡ scores_ok scores }
{
    let a = fmath::all_finite(&scores.f, 12);
    let b = fmath::all_finite(&scores.z, 12);
    let c = not_nan(scores.s);
    a & b & c
}

// Why a calibration and scores are refused, given whether all that was computed is finite.
#[tactic(auto, unfolding(crate::specs::Answer::judged))]
fn judge(
    cal: Calibration,
    center: &[f64; 192],
    scale: &[f64; 192],
    scores: Scores,
    sound: bool,
) -> Result<(), Refusal>
    ensures { result ≡ judged_by (judged cal (tables center.now scale.now) scores sound) }
{
    Refusal::when(Refusal::SIZE, !sizes_ok(cal))?;
    Refusal::when(Refusal::NUMBER, !numbers_ok(cal, center, scale))?;
    Refusal::when(Refusal::WITHDRAWN, !features_ok(cal))?;
    Refusal::when(Refusal::NOT_FINITE, !scores_ok(scores))?;
    Refusal::when(Refusal::COMPUTED, !sound)
}

// New scores where the number is 0, else the old ones.
fn answer(number: u8, old: Scores, new: Scores) -> Scored
    ensures { result ≡ scored number old new }
{
    let refusal = Refusal::of(number);
    if number == 0 {
        Scored {
            refusal,
            scores: new,
        }
    } else {
        Scored {
            refusal,
            scores: old,
        }
    }
}

// ---- standardise

// z of one feature.
fn standard(live: bool, x: f64, center: f64, scale: f64) -> Reckoned
    ensures { result ≡ reckoned_from (standard binary64 live x center scale) }
{
    let d = x - center;
    let z = d / scale;
    let a = fmath::finite(d);
    let b = fmath::finite(z);
    if live {
        Reckoned {
            value: z,
            sound: a & b,
        }
    } else {
        Reckoned {
            value: 0.0,
            sound: true,
        }
    }
}

// The bin itself, or the last of 16 for one past it.
fn last_bin(bin: usize) -> usize
    ensures { result ≡ min bin 15 }
{
    bin.min(15)
}

// z of all features in a time bin.
fn standards(
    center: &[f64; 192],
    scale: &[f64; 192],
    bin: usize,
    mask: u32,
    valid: u32,
    x: &[f64; 12],
) -> AllZ
    ensures { result ≡ standards_from (standards binary64 (tables center.now scale.now) bin (live mask valid) x.now) }
{
    let row = last_bin(bin) * 12;
    let mut z = [0.0; 12];
    let mut sound = true;
    for j in 0..12 {
        let live = bit(mask, j) & bit(valid, j);
        let one = standard(live, x[j], center[row + j], scale[row + j]);
        z[j] = one.value;
        sound = sound & one.sound;
    }
    AllZ { z, sound }
}

// Puts the scores' f in units of the calibration, for the features that are live.
pub fn standardise(
    cal: Calibration,
    center: &[f64; 192],
    scale: &[f64; 192],
    bin: usize,
    scores: Scores,
) -> Scored
    ensures { result ≡ standardised binary64 cal (tables center.now scale.now) bin scores }
{
    let x = scores.f;
    let new = standards(center, scale, bin, cal.mask, scores.valid, &x);
    let judged = judge(cal, center, scale, scores, new.sound);
    let z = new.z;
    let scored = Scores {
        f: x,
        z,
        s: scores.s,
        valid: scores.valid,
        fired: scores.fired,
    };
    answer(Refusal::number_of(judged), scores, scored)
}

// ---- aggregate

// Whether a term is live, and the least z of its features.
fn term(bits: u32, mask: u32, valid: u32, z: &[f64; 12]) -> Joined
    ensures { result ≡ term_from (live mask valid) z.now bits }
{
    let mut some = false;
    let mut every = true;
    let mut least = 1.0 / 0.0;
    for j in 0..12 {
        let named = bit(bits, j);
        let live = bit(mask, j) & bit(valid, j);
        some = some | named;
        every = every & (!named | live);
        if named {
            least = fmath::min(least, z[j]);
        }
    }
    Joined {
        live: some & every,
        least,
    }
}

// The greatest over the live terms that are counted of the least z of each.
fn greatest(gate: GateSpec, mask: u32, valid: u32, z: &[f64; 12]) -> f64
    ensures { result ≡ aggregate gate (live mask valid) z.now }
{
    let n = gate.n_terms as usize;
    let mut s = -(1.0 / 0.0);
    for (i, &bits) in gate.terms.iter().enumerate() {
        let t = term(bits, mask, valid, z);
        if (i < n) & t.live {
            s = fmath::max(s, t.least);
        }
    }
    s
}

// A bit for each live feature whose z is above tau.
fn fired_bits(mask: u32, valid: u32, tau: f64, z: &[f64; 12]) -> u32
    ensures { result ≡ fired_bits (live mask valid) tau z.now }
{
    let mut bits = 0u32;
    let mut w = 1u32;
    for j in 0..12 {
        let live = bit(mask, j) & bit(valid, j);
        bits += bits::weight(live & (z[j] > tau), w);
        w *= 2;
    }
    bits
}

// Sets s and fired from z.
pub fn aggregate(
    cal: Calibration,
    center: &[f64; 192],
    scale: &[f64; 192],
    scores: Scores,
) -> Scored
    ensures { result ≡ aggregated cal (tables center.now scale.now) scores }
{
    let judged = judge(cal, center, scale, scores, true);
    let gate = cal.gate;
    let x = scores.f;
    let z = scores.z;
    let s = greatest(gate, cal.mask, scores.valid, &z);
    let fired = fired_bits(cal.mask, scores.valid, cal.tau, &z);
    let scored = Scores {
        f: x,
        z,
        s,
        valid: scores.valid,
        fired,
    };
    answer(Refusal::number_of(judged), scores, scored)
}

// ---- trip and the time bin

// Whether s is above tau, strictly.
pub fn trip(
    cal: Calibration,
    center: &[f64; 192],
    scale: &[f64; 192],
    scores: Scores,
) -> Result<bool, Refusal>
    ensures { result ≡ tripped cal (tables center.now scale.now) scores }
{
    judge(cal, center, scale, scores, true)?;
    Ok(scores.s > cal.tau)
}

// How many ticks are over before tick t, where the first is numbered 1; none before tick 0 either.
fn ticks_before(t: u32) -> u32
    ensures { result ≡ t - 1 }
{
    t.saturating_sub(1)
}

// The time bin of tick t, of 16 over the horizon. Ticks are numbered from 1; tick 0, which has no chunk, is in the first bin too.
// Refused for a horizon of 0 ticks.
pub fn time_bin(t: u32, horizon_ticks: u32) -> Result<usize, Refusal>
    ensures { result ≡ time_bin_of t horizon_ticks }
{
    if horizon_ticks == 0 {
        return Err(Refusal::of(Refusal::STEPS));
    }
    let before = ticks_before(t);
    let bin = (before as u64) * 16 / (horizon_ticks as u64);
    Ok(last_bin(bin as usize))
}
