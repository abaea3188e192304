// The static library: each export is the library's function of that name, with its clauses. include/lictor.h says of each what it gives and refuses.
#![tactic(auto)]

ghost use Rattle.std.specs.Prelude.{◌≡◌, not, eqb, length};
ghost use Rattle.std.specs.Float.{binary64};
ghost use Rattle.refusal.specs.Order.{refusal};
ghost use Rattle.checked.specs.Least.{lesser, greater};
ghost use Rattle.fmath.specs.Clamp as clamping;
ghost use Rattle.fmath.specs.Answer.{sqrt_answer, norm_answer, dist_answer};
ghost use Rattle.chunk.specs.Rule.{row_of, row_set, held_rows};
ghost use Rattle.chunk.specs.Of.{fill_of};
ghost use Rattle.window.specs.Rule.{pushed, hits_in};
ghost use Rattle.window.specs.Answer.{mask_of, net_of, path_of, count_of, emptiness_of};
ghost use Rattle.window.specs.Of.{push_of, clear_of};
ghost use Rattle.envelope.specs.Derive.{derived};
ghost use Rattle.envelope.specs.Refusals.{config_judged};
ghost use Rattle.conformal.specs.Of.{tables};
ghost use Rattle.conformal.specs.Answer.{standardised, aggregated, tripped, time_bin_of};
ghost use Rattle.layout.specs.Trail.{trail_of};
ghost use Rattle.layout.specs.Scores.{marks_fit, scores_of};
ghost use Rattle.layout.specs.Config.{config_of, counts_fit};
ghost use Rattle.lictor.specs.Answer.{fitting, NumberGiven, FilledGiven, MaskGiven, RecordedGiven, CountGiven, EmptinessGiven, DerivedGiven, ScoredGiven, VerdictGiven, BinGiven};
ghost use Rattle.lictor.specs.Asked.{bare, header_asked, calibration_asked};
ghost use Rattle.lictor.specs.Environment.{environment};

mod braking;
mod checks;
mod scoring;

// ---- where it runs

// Whether the processor computes as the format says, of 1 and the least normal number. They are arguments so that nothing of it can be
// computed before the call.
#[unsafe(no_mangle)]
pub extern "C" fn lictor_environment(one: f64, least: f64) -> u64
    ensures { result ≡ environment binary64 one least }
{
    lictor::lictor_environment(one, least)
}

// ---- fmath (R1)

#[unsafe(no_mangle)]
pub extern "C" fn lictor_min(a: f64, b: f64) -> f64
    ensures { result ≡ lesser a b }
{
    lictor::lictor_min(a, b)
}

#[unsafe(no_mangle)]
pub extern "C" fn lictor_max(a: f64, b: f64) -> f64
    ensures { result ≡ greater a b }
{
    lictor::lictor_max(a, b)
}

#[unsafe(no_mangle)]
pub extern "C" fn lictor_clamp(x: f64, lo: f64, hi: f64) -> f64
    ensures { result ≡ clamping.clamped x lo hi }
{
    lictor::lictor_clamp(x, lo, hi)
}

#[unsafe(no_mangle)]
pub extern "C" fn lictor_clamp_side(x: f64, lo: f64, hi: f64, side: &mut i64) -> f64
    ensures { (result ≡ clamping.clamped x lo hi) × (side.new ≡ clamping.side x lo hi) }
{
    lictor::lictor_clamp_side(x, lo, hi, side)
}

#[unsafe(no_mangle)]
pub extern "C" fn lictor_sqrt(x: f64, root: &mut f64) -> u64
    ensures { NumberGiven (sqrt_answer binary64 x) result root.old root.new }
{
    lictor::lictor_sqrt(x, root)
}

#[unsafe(no_mangle)]
pub extern "C" fn lictor_norm(v: &[f64], n: usize, norm: &mut f64) -> u64
    ensures { NumberGiven (norm_answer binary64 v.now n) result norm.old norm.new }
{
    lictor::lictor_norm(v, n, norm)
}

#[unsafe(no_mangle)]
pub extern "C" fn lictor_dist(a: &[f64], b: &[f64], n: usize, dist: &mut f64) -> u64
    ensures { NumberGiven (dist_answer binary64 a.now b.now n) result dist.old dist.new }
{
    lictor::lictor_dist(a, b, n, dist)
}

// ---- chunk (R2)

#[unsafe(no_mangle)]
pub extern "C" fn lictor_fill(
    numbers: &mut [f64; 512],
    header: &mut [u64; 6],
    seq: u32,
    t_emit: u32,
    horizon: u16,
    dim: u16,
    exec_steps: u16,
    rows: &[f64],
) -> u64
    ensures { FilledGiven (fill_of (bare numbers.old (header_asked seq t_emit horizon dim exec_steps)) (header_asked seq t_emit horizon dim exec_steps) rows.now) result numbers.old numbers.new header.old header.new }
{
    lictor::lictor_fill(numbers, header, seq, t_emit, horizon, dim, exec_steps, rows)
}

#[unsafe(no_mangle)]
pub extern "C" fn lictor_action(
    rows: &[f64],
    horizon: u16,
    dim: u16,
    i: usize,
    row: &mut [f64],
) -> usize
    ensures { (result ≡ length (row_of rows.now horizon dim i)) × (row.new ≡ row_set row.old 1 dim 0 (row_of rows.now horizon dim i)) }
{
    lictor::lictor_action(rows, horizon, dim, i, row)
}

#[unsafe(no_mangle)]
pub extern "C" fn lictor_set_row(rows: &mut [f64], horizon: u16, dim: u16, i: usize, row: &[f64])
    ensures { rows.new ≡ row_set rows.old horizon dim i row.now }
{
    lictor::lictor_set_row(rows, horizon, dim, i, row)
}

#[unsafe(no_mangle)]
pub extern "C" fn lictor_held_rows(
    numbers: &[f64; 512],
    horizon: u16,
    dim: u16,
    filled: u64,
) -> usize
    ensures { result ≡ length (held_rows numbers.now horizon dim (not (eqb filled 0))) }
{
    lictor::lictor_held_rows(numbers, horizon, dim, filled)
}

// ---- window (R3)

#[unsafe(no_mangle)]
pub extern "C" fn lictor_mask(n: u8, mask: &mut u64) -> u64
    ensures { MaskGiven (mask_of n) result mask.old mask.new }
{
    lictor::lictor_mask(n, mask)
}

#[unsafe(no_mangle)]
pub extern "C" fn lictor_push(bits: u64, hit: u64, mask: u64) -> u64
    ensures { result ≡ pushed bits (not (eqb hit 0)) mask }
{
    lictor::lictor_push(bits, hit, mask)
}

#[unsafe(no_mangle)]
pub extern "C" fn lictor_hits(bits: u64) -> u64
    ensures { result ≡ hits_in bits }
{
    lictor::lictor_hits(bits)
}

#[unsafe(no_mangle)]
pub extern "C" fn lictor_trail_push(
    numbers: &mut [f64; 256],
    marks: &mut [u64; 2],
    p: &[f64],
    d: usize,
) -> u64
    ensures { RecordedGiven (push_of (trail_of numbers.old marks.old) p.now d) result numbers.old numbers.new marks.old marks.new }
{
    lictor::lictor_trail_push(numbers, marks, p, d)
}

#[unsafe(no_mangle)]
pub extern "C" fn lictor_trail_clear(numbers: &mut [f64; 256], marks: &mut [u64; 2]) -> u64
    ensures { RecordedGiven (clear_of (trail_of numbers.old marks.old)) result numbers.old numbers.new marks.old marks.new }
{
    lictor::lictor_trail_clear(numbers, marks)
}

#[unsafe(no_mangle)]
pub extern "C" fn lictor_trail_net(
    numbers: &[f64; 256],
    marks: &[u64; 2],
    d: usize,
    w: usize,
    net: &mut f64,
) -> u64
    ensures { NumberGiven (net_of binary64 (trail_of numbers.now marks.now) d w) result net.old net.new }
{
    lictor::lictor_trail_net(numbers, marks, d, w, net)
}

#[unsafe(no_mangle)]
pub extern "C" fn lictor_trail_path(
    numbers: &[f64; 256],
    marks: &[u64; 2],
    d: usize,
    w: usize,
    path: &mut f64,
) -> u64
    ensures { NumberGiven (path_of binary64 (trail_of numbers.now marks.now) d w) result path.old path.new }
{
    lictor::lictor_trail_path(numbers, marks, d, w, path)
}

#[unsafe(no_mangle)]
pub extern "C" fn lictor_trail_len(numbers: &[f64; 256], marks: &[u64; 2], len: &mut u64) -> u64
    ensures { CountGiven (count_of (trail_of numbers.now marks.now)) result len.old len.new }
{
    lictor::lictor_trail_len(numbers, marks, len)
}

#[unsafe(no_mangle)]
pub extern "C" fn lictor_trail_is_empty(
    numbers: &[f64; 256],
    marks: &[u64; 2],
    empty: &mut u64,
) -> u64
    ensures { EmptinessGiven (emptiness_of (trail_of numbers.now marks.now)) result empty.old empty.new }
{
    lictor::lictor_trail_is_empty(numbers, marks, empty)
}

// ---- envelope (R4)

#[unsafe(no_mangle)]
pub extern "C" fn lictor_derive(
    numbers: &[f64; 53],
    counts: &[u64; 35],
    center: &[f64; 192],
    scale: &[f64; 192],
    out: &mut [f64; 29],
) -> u64
    ensures { DerivedGiven (fitting (counts_fit counts.now) (refusal (config_judged binary64 (config_of numbers.now counts.now) (tables center.now scale.now)))) (derived binary64 (config_of numbers.now counts.now)) result out.old out.new }
{
    lictor::lictor_derive(numbers, counts, center, scale, out)
}

// ---- conformal (R8)

#[unsafe(no_mangle)]
pub extern "C" fn lictor_standardise(
    center: &[f64; 192],
    scale: &[f64; 192],
    tau: f64,
    mask: u32,
    n_terms: u8,
    terms: &[u32; 8],
    bin: usize,
    scores: &mut [f64; 25],
    marks: &mut [u64; 2],
) -> u64
    ensures { ScoredGiven (marks_fit marks.old) (standardised binary64 (calibration_asked tau mask n_terms terms.now) (tables center.now scale.now) bin (scores_of scores.old marks.old)) result scores.old scores.new marks.old marks.new }
{
    lictor::lictor_standardise(center, scale, tau, mask, n_terms, terms, bin, scores, marks)
}

#[unsafe(no_mangle)]
pub extern "C" fn lictor_aggregate(
    center: &[f64; 192],
    scale: &[f64; 192],
    tau: f64,
    mask: u32,
    n_terms: u8,
    terms: &[u32; 8],
    scores: &mut [f64; 25],
    marks: &mut [u64; 2],
) -> u64
    ensures { ScoredGiven (marks_fit marks.old) (aggregated (calibration_asked tau mask n_terms terms.now) (tables center.now scale.now) (scores_of scores.old marks.old)) result scores.old scores.new marks.old marks.new }
{
    lictor::lictor_aggregate(center, scale, tau, mask, n_terms, terms, scores, marks)
}

#[unsafe(no_mangle)]
pub extern "C" fn lictor_trip(
    center: &[f64; 192],
    scale: &[f64; 192],
    tau: f64,
    mask: u32,
    n_terms: u8,
    terms: &[u32; 8],
    scores: &[f64; 25],
    marks: &[u64; 2],
    trips: &mut u64,
) -> u64
    ensures { VerdictGiven (marks_fit marks.now) (tripped (calibration_asked tau mask n_terms terms.now) (tables center.now scale.now) (scores_of scores.now marks.now)) result trips.old trips.new }
{
    lictor::lictor_trip(
        center, scale, tau, mask, n_terms, terms, scores, marks, trips,
    )
}

#[unsafe(no_mangle)]
pub extern "C" fn lictor_time_bin(t: u32, horizon_ticks: u32, bin: &mut u64) -> u64
    ensures { BinGiven (time_bin_of t horizon_ticks) result bin.old bin.new }
{
    lictor::lictor_time_bin(t, horizon_ticks, bin)
}
