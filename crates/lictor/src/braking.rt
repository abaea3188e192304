// Module 7 for C: the stopping forecast, a run under one setpoint, and the rows that brake and hold.
ghost use Rattle.std.specs.Prelude.{length};
ghost use Rattle.std.specs.Float.{binary64};
ghost use Rattle.conformal.specs.Of.{tables};
ghost use Rattle.layout.specs.Config.{config_of, counts_fit};
ghost use Rattle.brake.specs.Answer.{forecast_answer, forecast_slacks, brake_answer, brake_output, hold_answer, hold_output};
ghost use Rattle.brake.specs.Towards.{run_answer, run_slacks, run_position, run_velocity};
ghost use Rattle.lictor.specs.Answer.{ForecastGiven, RanGiven, SentGiven};
ghost use Rattle.lictor.specs.Asked.{sizes_asked};

use chunk::Header;

pub fn lictor_brake_feasible(
    numbers: &[f64; 53],
    counts: &[u64; 35],
    center: &[f64; 192],
    scale: &[f64; 192],
    pos: &[f64],
    vel: &[f64],
    rows: &[f64],
    horizon: u16,
    dim: u16,
    exec_steps: u16,
    from: usize,
    slack: &mut [f64],
    marks: &mut [u64; 2],
    distances: &mut [f64; 2],
    place: &mut u64,
) -> u64
    ensures { ForecastGiven (counts_fit counts.now) (forecast_answer binary64 (config_of numbers.now counts.now) (tables center.now scale.now) pos.now vel.now rows.now (sizes_asked horizon dim exec_steps) from (length slack.old)) (forecast_slacks binary64 (config_of numbers.now counts.now) (tables center.now scale.now) pos.now vel.now rows.now (sizes_asked horizon dim exec_steps) from slack.old) result marks.old marks.new distances.old distances.new place.old place.new slack.old slack.new }
{
    let fits = layout::config::counts_fit(counts);
    if !fits {
        return 255;
    }
    let c = layout::config::config_of(numbers, counts);
    let k = Header {
        seq: 0,
        t_emit: 0,
        horizon,
        dim,
        exec_steps,
    };
    let a = brake::brake_feasible(c, center, scale, pos, vel, rows, k, from, slack);
    crate::answer::put_forecast(a, marks, distances, place)
}

pub fn lictor_run_towards(
    numbers: &[f64; 53],
    counts: &[u64; 35],
    center: &[f64; 192],
    scale: &[f64; 192],
    setpoint: &[f64],
    pos: &mut [f64],
    vel: &mut [f64],
    n: usize,
    slack: &mut [f64],
    count: &mut u64,
    margin: &mut f64,
    place: &mut u64,
) -> u64
    ensures { RanGiven (counts_fit counts.now) (run_answer binary64 (config_of numbers.now counts.now) (tables center.now scale.now) setpoint.now pos.old vel.old n (length slack.old)) (run_slacks binary64 (config_of numbers.now counts.now) (tables center.now scale.now) setpoint.now pos.old vel.old n slack.old) (run_position binary64 (config_of numbers.now counts.now) (tables center.now scale.now) setpoint.now pos.old vel.old n (length slack.old)) (run_velocity binary64 (config_of numbers.now counts.now) (tables center.now scale.now) setpoint.now pos.old vel.old n (length slack.old)) result count.old count.new margin.old margin.new place.old place.new slack.old slack.new pos.old pos.new vel.old vel.new }
{
    let fits = layout::config::counts_fit(counts);
    if !fits {
        return 255;
    }
    let c = layout::config::config_of(numbers, counts);
    let run = brake::run_towards(c, center, scale, setpoint, pos, vel, n, slack);
    crate::answer::put_ran(run, count, margin, place)
}

pub fn lictor_brake_action(
    numbers: &[f64; 53],
    counts: &[u64; 35],
    center: &[f64; 192],
    scale: &[f64; 192],
    pos: &[f64],
    vel: &[f64],
    last: &[f64],
    out: &mut [f64],
    walls: &mut [u64; 2],
) -> u64
    ensures { SentGiven (counts_fit counts.now) (brake_answer binary64 (config_of numbers.now counts.now) (tables center.now scale.now) pos.now vel.now last.now (length out.old)) (brake_output binary64 (config_of numbers.now counts.now) (tables center.now scale.now) pos.now vel.now last.now out.old) result walls.old walls.new out.old out.new }
{
    let fits = layout::config::counts_fit(counts);
    if !fits {
        return 255;
    }
    let c = layout::config::config_of(numbers, counts);
    let a = brake::brake_action(c, center, scale, pos, vel, last, out);
    crate::answer::put_sent(a, walls)
}

pub fn lictor_hold_action(
    numbers: &[f64; 53],
    counts: &[u64; 35],
    center: &[f64; 192],
    scale: &[f64; 192],
    pos: &[f64],
    last: &[f64],
    out: &mut [f64],
    walls: &mut [u64; 2],
) -> u64
    ensures { SentGiven (counts_fit counts.now) (hold_answer binary64 (config_of numbers.now counts.now) (tables center.now scale.now) pos.now last.now (length out.old)) (hold_output binary64 (config_of numbers.now counts.now) (tables center.now scale.now) pos.now last.now out.old) result walls.old walls.new out.old out.new }
{
    let fits = layout::config::counts_fit(counts);
    if !fits {
        return 255;
    }
    let arm = layout::config::config_of(numbers, counts);
    let held = brake::hold_action(arm, center, scale, pos, last, out);
    crate::answer::put_sent(held, walls)
}
