// Module 5 for C: the checks of an action and of a chunk.
ghost use Rattle.std.specs.Prelude.{length};
ghost use Rattle.std.specs.Float.{binary64};
ghost use Rattle.conformal.specs.Of.{tables};
ghost use Rattle.layout.specs.Config.{config_of, counts_fit};
ghost use Rattle.tier0.specs.Of.{action_answer, action_out, chunk_answer, chunk_out};
ghost use Rattle.lictor.specs.Answer.{CheckGiven};
ghost use Rattle.lictor.specs.Asked.{sizes_asked};

#[unsafe(no_mangle)]
pub extern "C" fn lictor_check_chunk(
    numbers: &[f64; 53],
    counts: &[u64; 35],
    center: &[f64; 192],
    scale: &[f64; 192],
    pos: &[f64],
    aux: &[f64],
    rows: &[f64],
    horizon: u16,
    dim: u16,
    exec_steps: u16,
    out: &mut [f64],
    marks: &mut [u64; 4],
    speed: &mut f64,
) -> u64
    ensures { CheckGiven (counts_fit counts.now) (chunk_answer binary64 (config_of numbers.now counts.now) (tables center.now scale.now) pos.now aux.now rows.now (sizes_asked horizon dim exec_steps) (length out.old)) (chunk_out binary64 (config_of numbers.now counts.now) (tables center.now scale.now) pos.now aux.now rows.now (sizes_asked horizon dim exec_steps) out.old) result marks.old marks.new speed.old speed.new out.old out.new }
{
    lictor::checks::lictor_check_chunk(
        numbers, counts, center, scale, pos, aux, rows, horizon, dim, exec_steps, out, marks, speed,
    )
}

#[unsafe(no_mangle)]
pub extern "C" fn lictor_check_action(
    numbers: &[f64; 53],
    counts: &[u64; 35],
    center: &[f64; 192],
    scale: &[f64; 192],
    pos: &[f64],
    aux: &[f64],
    prev: &[f64],
    action: &[f64],
    out: &mut [f64],
    marks: &mut [u64; 4],
    speed: &mut f64,
) -> u64
    ensures { CheckGiven (counts_fit counts.now) (action_answer binary64 (config_of numbers.now counts.now) (tables center.now scale.now) pos.now aux.now prev.now action.now (length out.old)) (action_out binary64 (config_of numbers.now counts.now) (tables center.now scale.now) pos.now aux.now prev.now action.now out.old) result marks.old marks.new speed.old speed.new out.old out.new }
{
    lictor::checks::lictor_check_action(
        numbers, counts, center, scale, pos, aux, prev, action, out, marks, speed,
    )
}
