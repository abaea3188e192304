// Module 6 for C: the features of a tick, and the state that is held between ticks.
ghost use Rattle.std.specs.Prelude.{not, ◌&&◌, eqb};
ghost use Rattle.std.specs.Float.{binary64};
ghost use Rattle.conformal.specs.Of.{tables};
ghost use Rattle.layout.specs.Config.{config_of, counts_fit};
ghost use Rattle.layout.specs.Scores.{marks_fit, scores_of};
ghost use Rattle.layout.specs.State.{state_fits, state_of};
ghost use Rattle.tier1.specs.Of.{new_rt, features_of, reset_of};
ghost use Rattle.lictor.specs.Answer.{FeaturedGiven, StateLaid, ClearedGiven};
ghost use Rattle.lictor.specs.Asked.{header_asked};

use chunk::Header;
use conformal::Scores;
use tier1::Tier1Rt;

pub fn lictor_features(
    numbers: &[f64; 53],
    counts: &[u64; 35],
    center: &[f64; 192],
    scale: &[f64; 192],
    before: &mut [f64; 512],
    header: &mut [u64; 6],
    trail: &[f64; 256],
    samples: &[u64; 2],
    held: &mut [f64; 6],
    kept: &mut [u64; 2],
    pos: &[f64],
    ext: &[f64],
    there: u64,
    seq: u32,
    t_emit: u32,
    horizon: u16,
    dim: u16,
    exec_steps: u16,
    rows: &[f64],
    scores: &mut [f64; 25],
    marks: &mut [u64; 2],
) -> u64
    ensures { FeaturedGiven (counts_fit counts.now && state_fits header.old kept.old && marks_fit marks.old) (not (eqb there 0)) (features_of binary64 (config_of numbers.now counts.now) (tables center.now scale.now) pos.now ext.now (not (eqb there 0)) (header_asked seq t_emit horizon dim exec_steps) rows.now (state_of before.old header.old trail.now samples.now held.old kept.old) (scores_of scores.old marks.old)) result before.old before.new header.old header.new held.old held.new kept.old kept.new scores.old scores.new marks.old marks.new }
{
    let config_fits = layout::config::counts_fit(counts);
    let state_fits = layout::states::state_fits(header, kept);
    let scores_fit = layout::scores::marks_fit(marks);
    let c = layout::config::config_of(numbers, counts);
    let rt = layout::states::state_of(before, header, trail, samples, held, kept);
    let sc = layout::scores::scores_of(scores, marks);
    let k = Header {
        seq,
        t_emit,
        horizon,
        dim,
        exec_steps,
    };
    let came = there != 0;
    let a = tier1::one_tick(c, center, scale, rt, pos, ext, came, k, rows, sc);
    let fits = config_fits & state_fits & scores_fit;
    let number = crate::answer::fitting(fits, a.refusal.number);
    if number != 0 {
        return number;
    }
    crate::answer::put_lent(came, k, rows, before, header);
    let features = a.held;
    layout::states::put_held(features, came | rt.have_prev, a.held_valid, held, kept);
    let f = a.f;
    let z = sc.z;
    let next = Scores {
        f,
        z,
        s: sc.s,
        valid: a.valid,
        fired: sc.fired,
    };
    layout::scores::put_scores(next, scores, marks);
    number
}

pub fn lictor_tier1_new(
    before: &mut [f64; 512],
    header: &mut [u64; 6],
    trail: &mut [f64; 256],
    samples: &mut [u64; 2],
    held: &mut [f64; 6],
    kept: &mut [u64; 2],
)
    ensures { StateLaid new_rt before.new header.new trail.new samples.new held.new kept.new }
{
    let rt = Tier1Rt::new();
    let features = rt.held;
    layout::chunks::put_chunk(rt.prev, before, header);
    layout::trails::put_trail(rt.trail, trail, samples);
    layout::states::put_held(features, rt.have_prev, rt.held_valid, held, kept);
}

pub fn lictor_tier1_reset(
    before: &mut [f64; 512],
    header: &mut [u64; 6],
    trail: &mut [f64; 256],
    samples: &mut [u64; 2],
    held: &mut [f64; 6],
    kept: &mut [u64; 2],
) -> u64
    ensures { ClearedGiven (state_fits header.old kept.old) (reset_of (state_of before.old header.old trail.old samples.old held.old kept.old)) result before.old before.new header.old header.new trail.old trail.new samples.old samples.new held.old held.new kept.old kept.new }
{
    let fits = layout::states::state_fits(header, kept);
    let rt = layout::states::state_of(before, header, trail, samples, held, kept);
    let a = rt.reset();
    crate::answer::put_cleared(fits, a, before, header, trail, samples, held, kept)
}
