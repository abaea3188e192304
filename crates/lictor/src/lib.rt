// The guard's entries for C, on numbers and slices. crates/lictor_c exports each, and include/lictor.h says of each what it gives and refuses.
#![tactic(auto)]

ghost use Rattle.std.specs.Prelude.{◌≡◌, not, eqb, length};
ghost use Rattle.std.specs.Float.{binary64};
ghost use Rattle.refusal.specs.Order.{refusal};
ghost use Rattle.checked.specs.Least.{lesser, greater};
ghost use Rattle.fmath.specs.Clamp as clamping;
ghost use Rattle.fmath.specs.Answer.{sqrt_answer, norm_answer, dist_answer};
ghost use Rattle.chunk.specs.Rule.{row_of, row_set, held_rows};
ghost use Rattle.chunk.specs.Of.{fill_of};
ghost use Rattle.window.specs.Rule.{pushed, hits_in};
ghost use Rattle.window.specs.Answer.{mask_of, net_of, path_of, count_of, emptiness_of};
ghost use Rattle.window.specs.Of.{push_of, clear_of};
ghost use Rattle.envelope.specs.Derive.{derived};
ghost use Rattle.envelope.specs.Refusals.{config_judged};
ghost use Rattle.conformal.specs.Of.{tables};
ghost use Rattle.conformal.specs.Answer.{standardised, aggregated, tripped, time_bin_of};
ghost use Rattle.layout.specs.Trail.{trail_of};
ghost use Rattle.layout.specs.Scores.{marks_fit, scores_of};
ghost use Rattle.layout.specs.Config.{config_of, counts_fit};
ghost use Rattle.lictor.specs.Answer.{fitting, NumberGiven, FilledGiven, MaskGiven, RecordedGiven, CountGiven, EmptinessGiven, DerivedGiven, ScoredGiven, VerdictGiven, BinGiven};
ghost use Rattle.lictor.specs.Asked.{bare, header_asked, calibration_asked};
ghost use Rattle.lictor.specs.Environment.{environment};

use chunk::Header;
use conformal::{Calibration, GateSpec};
use refusal::Refusal;
use window::Window;

mod answer;
pub mod braking;
pub mod checks;
pub mod scoring;

// ---- where it runs

// Whether the processor computes as the format says, of 1 and the least normal number. They are arguments so that nothing of it can be
// computed before the call.
pub fn lictor_environment(one: f64, least: f64) -> u64
    ensures { result ≡ environment binary64 one least }
{
    let up = one + one / 9007199254740992.0;
    let down = one - one / 18014398509481984.0;
    let half = least / 2.0;
    ((up == one) & (down == one) & (0.0 < half)) as u64
}

// ---- fmath (R1)

pub fn lictor_min(a: f64, b: f64) -> f64
    ensures { result ≡ lesser a b }
{
    fmath::min(a, b)
}

pub fn lictor_max(a: f64, b: f64) -> f64
    ensures { result ≡ greater a b }
{
    fmath::max(a, b)
}

pub fn lictor_clamp(x: f64, lo: f64, hi: f64) -> f64
    ensures { result ≡ clamping.clamped x lo hi }
{
    fmath::clamp(x, lo, hi).value
}

pub fn lictor_clamp_side(x: f64, lo: f64, hi: f64, side: &mut i64) -> f64
    ensures { (result ≡ clamping.clamped x lo hi) × (side.new ≡ clamping.side x lo hi) }
{
    let c = fmath::clamp(x, lo, hi);
    let moved = c.side;
    *side = moved;
    c.value
}

pub fn lictor_sqrt(x: f64, root: &mut f64) -> u64
    ensures { NumberGiven (sqrt_answer binary64 x) result root.old root.new }
{
    answer::put_number(fmath::sqrt(x), root)
}

pub fn lictor_norm(v: &[f64], n: usize, norm: &mut f64) -> u64
    ensures { NumberGiven (norm_answer binary64 v.now n) result norm.old norm.new }
{
    answer::put_number(fmath::norm(v, n), norm)
}

pub fn lictor_dist(a: &[f64], b: &[f64], n: usize, dist: &mut f64) -> u64
    ensures { NumberGiven (dist_answer binary64 a.now b.now n) result dist.old dist.new }
{
    answer::put_number(fmath::dist(a, b, n), dist)
}

// ---- chunk (R2)

pub fn lictor_fill(
    numbers: &mut [f64; 512],
    header: &mut [u64; 6],
    seq: u32,
    t_emit: u32,
    horizon: u16,
    dim: u16,
    exec_steps: u16,
    rows: &[f64],
) -> u64
    ensures { FilledGiven (fill_of (bare numbers.old (header_asked seq t_emit horizon dim exec_steps)) (header_asked seq t_emit horizon dim exec_steps) rows.now) result numbers.old numbers.new header.old header.new }
{
    let k = Header {
        seq,
        t_emit,
        horizon,
        dim,
        exec_steps,
    };
    let number = Refusal::number_of(chunk::lent_refusal(rows, k));
    answer::put_lent(number == 0, k, rows, numbers, header);
    number as u64
}

pub fn lictor_action(rows: &[f64], horizon: u16, dim: u16, i: usize, row: &mut [f64]) -> usize
    ensures { (result ≡ length (row_of rows.now horizon dim i)) × (row.new ≡ row_set row.old 1 dim 0 (row_of rows.now horizon dim i)) }
{
    let found = chunk::action(rows, horizon, dim, i);
    chunk::set_row(row, 1, dim, 0, found);
    found.len()
}

pub fn lictor_set_row(rows: &mut [f64], horizon: u16, dim: u16, i: usize, row: &[f64])
    ensures { rows.new ≡ row_set rows.old horizon dim i row.now }
{
    chunk::set_row(rows, horizon, dim, i, row)
}

pub fn lictor_held_rows(numbers: &[f64; 512], horizon: u16, dim: u16, filled: u64) -> usize
    ensures { result ≡ length (held_rows numbers.now horizon dim (not (eqb filled 0))) }
{
    chunk::held_rows(numbers, horizon, dim, filled != 0).len()
}

// ---- window (R3)

pub fn lictor_mask(n: u8, mask: &mut u64) -> u64
    ensures { MaskGiven (mask_of n) result mask.old mask.new }
{
    answer::put_mask(window::mask(n), mask)
}

pub fn lictor_push(bits: u64, hit: u64, mask: u64) -> u64
    ensures { result ≡ pushed bits (not (eqb hit 0)) mask }
{
    let w = Window { bits };
    let next = w.pushed(hit != 0, mask);
    next.bits
}

pub fn lictor_hits(bits: u64) -> u64
    ensures { result ≡ hits_in bits }
{
    let w = Window { bits };
    w.hits() as u64
}

pub fn lictor_trail_push(numbers: &mut [f64; 256], marks: &mut [u64; 2], p: &[f64], d: usize) -> u64
    ensures { RecordedGiven (push_of (trail_of numbers.old marks.old) p.now d) result numbers.old numbers.new marks.old marks.new }
{
    let t = layout::trails::trail_of(numbers, marks);
    let pushed = t.push(p, d);
    answer::put_recorded(pushed, numbers, marks)
}

pub fn lictor_trail_clear(numbers: &mut [f64; 256], marks: &mut [u64; 2]) -> u64
    ensures { RecordedGiven (clear_of (trail_of numbers.old marks.old)) result numbers.old numbers.new marks.old marks.new }
{
    let t = layout::trails::trail_of(numbers, marks);
    let cleared = t.clear();
    answer::put_recorded(cleared, numbers, marks)
}

pub fn lictor_trail_net(
    numbers: &[f64; 256],
    marks: &[u64; 2],
    d: usize,
    w: usize,
    net: &mut f64,
) -> u64
    ensures { NumberGiven (net_of binary64 (trail_of numbers.now marks.now) d w) result net.old net.new }
{
    let t = layout::trails::trail_of(numbers, marks);
    let found = t.net(d, w);
    answer::put_number(found, net)
}

pub fn lictor_trail_path(
    numbers: &[f64; 256],
    marks: &[u64; 2],
    d: usize,
    w: usize,
    path: &mut f64,
) -> u64
    ensures { NumberGiven (path_of binary64 (trail_of numbers.now marks.now) d w) result path.old path.new }
{
    let t = layout::trails::trail_of(numbers, marks);
    let found = t.path(d, w);
    answer::put_number(found, path)
}

pub fn lictor_trail_len(numbers: &[f64; 256], marks: &[u64; 2], len: &mut u64) -> u64
    ensures { CountGiven (count_of (trail_of numbers.now marks.now)) result len.old len.new }
{
    let t = layout::trails::trail_of(numbers, marks);
    let held = t.len();
    answer::put_count(held, len)
}

pub fn lictor_trail_is_empty(numbers: &[f64; 256], marks: &[u64; 2], empty: &mut u64) -> u64
    ensures { EmptinessGiven (emptiness_of (trail_of numbers.now marks.now)) result empty.old empty.new }
{
    let t = layout::trails::trail_of(numbers, marks);
    let said = t.is_empty();
    answer::put_emptiness(said, empty)
}

// ---- envelope (R4)

pub fn lictor_derive(
    numbers: &[f64; 53],
    counts: &[u64; 35],
    center: &[f64; 192],
    scale: &[f64; 192],
    out: &mut [f64; 29],
) -> u64
    ensures { DerivedGiven (fitting (counts_fit counts.now) (refusal (config_judged binary64 (config_of numbers.now counts.now) (tables center.now scale.now)))) (derived binary64 (config_of numbers.now counts.now)) result out.old out.new }
{
    let fits = layout::config::counts_fit(counts);
    let c = layout::config::config_of(numbers, counts);
    let compiled = envelope::compile(c, center, scale);
    let number = answer::fitting(fits, Refusal::number_of(compiled.judged));
    answer::put_derived(number, compiled.derived, out)
}

// ---- conformal (R8)

fn calibration(tau: f64, mask: u32, n_terms: u8, terms: &[u32; 8]) -> Calibration
    ensures { result ≡ calibration_asked tau mask n_terms terms.now }
{
    let gate = GateSpec {
        n_terms,
        terms: *terms,
    };
    Calibration { mask, gate, tau }
}

pub fn lictor_standardise(
    center: &[f64; 192],
    scale: &[f64; 192],
    tau: f64,
    mask: u32,
    n_terms: u8,
    terms: &[u32; 8],
    bin: usize,
    scores: &mut [f64; 25],
    marks: &mut [u64; 2],
) -> u64
    ensures { ScoredGiven (marks_fit marks.old) (standardised binary64 (calibration_asked tau mask n_terms terms.now) (tables center.now scale.now) bin (scores_of scores.old marks.old)) result scores.old scores.new marks.old marks.new }
{
    let cal = calibration(tau, mask, n_terms, terms);
    let fits = layout::scores::marks_fit(marks);
    let sc = layout::scores::scores_of(scores, marks);
    let standardised = conformal::standardise(cal, center, scale, bin, sc);
    answer::put_scored(fits, standardised, scores, marks)
}

pub fn lictor_aggregate(
    center: &[f64; 192],
    scale: &[f64; 192],
    tau: f64,
    mask: u32,
    n_terms: u8,
    terms: &[u32; 8],
    scores: &mut [f64; 25],
    marks: &mut [u64; 2],
) -> u64
    ensures { ScoredGiven (marks_fit marks.old) (aggregated (calibration_asked tau mask n_terms terms.now) (tables center.now scale.now) (scores_of scores.old marks.old)) result scores.old scores.new marks.old marks.new }
{
    let cal = calibration(tau, mask, n_terms, terms);
    let fits = layout::scores::marks_fit(marks);
    let sc = layout::scores::scores_of(scores, marks);
    let aggregated = conformal::aggregate(cal, center, scale, sc);
    answer::put_scored(fits, aggregated, scores, marks)
}

pub fn lictor_trip(
    center: &[f64; 192],
    scale: &[f64; 192],
    tau: f64,
    mask: u32,
    n_terms: u8,
    terms: &[u32; 8],
    scores: &[f64; 25],
    marks: &[u64; 2],
    trips: &mut u64,
) -> u64
    ensures { VerdictGiven (marks_fit marks.now) (tripped (calibration_asked tau mask n_terms terms.now) (tables center.now scale.now) (scores_of scores.now marks.now)) result trips.old trips.new }
{
    let cal = calibration(tau, mask, n_terms, terms);
    let fits = layout::scores::marks_fit(marks);
    let sc = layout::scores::scores_of(scores, marks);
    let verdict = conformal::trip(cal, center, scale, sc);
    answer::put_verdict(fits, verdict, trips)
}

pub fn lictor_time_bin(t: u32, horizon_ticks: u32, bin: &mut u64) -> u64
    ensures { BinGiven (time_bin_of t horizon_ticks) result bin.old bin.new }
{
    answer::put_bin(conformal::time_bin(t, horizon_ticks), bin)
}
