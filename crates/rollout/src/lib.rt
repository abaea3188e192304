// Runs of substeps, each of which leaves its slack: towards one setpoint, and the second-order brake, which goes through the committed
// rows and then holds the braking setpoint.
#![tactic(auto)]

ghost use Rattle.std.specs.Prelude.{◌≡◌, true, List, ℕ, ◌+◌, ◌≤◌, ◌<◌, length, Float, if◌then◌else◌};
ghost use Rattle.std.specs.Float.{binary64};
ghost use Rattle.envelope.specs.Steps.{substeps_of};
ghost use Rattle.rollout.specs.Plant.{axis, substep};
ghost use Rattle.course.specs.Plant.{State};
ghost use Rattle.course.specs.Forecast.{Forecast, written_of};
ghost use Rattle.rollout.specs.Rule.{stop_distance, forecast};
ghost use Rattle.rollout.specs.Leg.{leg};
ghost use Rattle.course.specs.declared.Plant.{Plant};
ghost use Rattle.rollout.specs.Of.{gains_of, moved_from, joined_of, ended_of, task_of, Along, leg_of, AlongLeg, leg_run, leg_roomy, rolled_of, roomy};
ghost use Rattle.course.specs.Of.{state_of, CameAlong, left_of, shaped, no_run};
ghost use Rattle.checked.specs.Of.{reckoned_from};

use checked::Reckoned;
use course::{Course, Plant, Run};
use envelope::ControlSteps;
use workspace::{Bounds, Workspace};

// The gains, and the length of a substep.
#[derive(Clone, Copy)]
pub struct Law {
    pub k_p: f64,
    pub k_v: f64,
    pub dt: f64,
}

#[derive(Clone, Copy)]
struct Moved {
    p: f64,
    v: f64,
}

// One axis for one substep, towards a.
fn axis(g: Law, a: f64, p: f64, v: f64) -> Moved
    ensures { result ≡ moved_from (axis binary64 (gains_of g) a (record { p = p; v = v })).value }
{
    let acc = g.k_p * (a - p) - g.k_v * v;
    let faster = v + acc * g.dt;
    Moved {
        p: p + faster * g.dt,
        v: faster,
    }
}

// The first n axes for one substep.
fn substep(g: Law, a: &[f64], n: usize, s: Plant) -> Plant
    requires { (n ≤ 8) × (n ≤ length a.now) }
    ensures { state_of result ≡ (substep binary64 (gains_of g) a.now n (state_of s)).value }
{
    let mut r = s;
    for j in 0..n {
        let m = axis(g, a[j], r.p[j], r.v[j]);
        r.p[j] = m.p;
        r.v[j] = m.v;
    }
    r
}

// One substep more, if the run still goes: its slack is written unless a number on the way isn't finite.
fn advance(g: Law, w: Workspace, n: usize, a: &[f64], run: Run, slack: &mut [f64]) -> Run
    requires { (n ≤ 8) × (n ≤ length a.now) × (run.done < length slack.old) }
    ensures { (result.done ≤ run.done + 1) × ((t : Forecast) (stand : ℕ → State) (l : List Float) (k : ℕ) → AlongLeg binary64 (leg_of binary64 g w n a.now) t stand k 1 run → CameAlong t stand l k run slack.old → CameAlong t stand l (k + 1) result slack.new) }
{
    if !run.sound {
        return run;
    }
    let plant = run.plant;
    let next = substep(g, a, n, plant);
    let p = next.p;
    let gap = workspace::slack(w, p, n);
    if !gap.sound {
        return Run {
            plant,
            margin: run.margin,
            done: run.done,
            sound: false,
        };
    }
    let at = run.done;
    slack[at] = gap.value;
    let margin = fmath::min(run.margin, gap.value);
    Run {
        plant: next,
        margin,
        done: at + 1,
        sound: true,
    }
}

// The first n axes of the one, the rest of the other.
fn joined(moved: Plant, still: Plant, n: usize) -> Plant
    requires { n ≤ 8 }
    ensures { result ≡ joined_of moved still n }
{
    let mut r = still;
    fmath::put(&moved.p, n, &mut r.p);
    fmath::put(&moved.v, n, &mut r.v);
    r
}

// A run that has come so far, its first n axes moved and the rest still where they were.
fn ended(moved: Plant, still: Plant, n: usize, margin: f64, done: usize, sound: bool) -> Run
    requires { n ≤ 8 }
    ensures { result ≡ ended_of moved still n margin done sound }
{
    let plant = joined(moved, still, n);
    Run {
        plant,
        margin,
        done,
        sound,
    }
}

// One setpoint, held for so many substeps, axis by axis.
fn stepwise(
    g: Law,
    w: Workspace,
    n: usize,
    a: &[f64],
    count: usize,
    run: Run,
    slack: &mut [f64],
) -> Run
    requires { (n ≤ 8) × (n ≤ length a.now) × (run.done + count ≤ length slack.old) }
    ensures { (result.done ≤ run.done + count) × ((t : Forecast) (stand : ℕ → State) (l : List Float) (k : ℕ) → AlongLeg binary64 (leg_of binary64 g w n a.now) t stand k count run → CameAlong t stand l k run slack.old → CameAlong t stand l (k + count) result slack.new) }
{
    let mut r = run;
    for _ in 0..count {
        r = advance(g, w, n, a, r, slack);
    }
    r
}

// The same with all eight axes abreast, so that the compiled plant stays in registers. What the axes past the first n come to is neither
// judged nor kept; a disc looks at two, so n is two or more.
fn abreast(
    g: Law,
    w: Workspace,
    n: usize,
    a: &[f64],
    count: usize,
    run: Run,
    slack: &mut [f64],
) -> Run
    requires { (n ≤ 8) × (n ≤ length a.now) × (run.done + count ≤ length slack.old) × (2 ≤ n) }
    ensures { (result.done ≤ run.done + count) × ((t : Forecast) (stand : ℕ → State) (l : List Float) (k : ℕ) → AlongLeg binary64 (leg_of binary64 g w n a.now) t stand k count run → CameAlong t stand l k run slack.old → CameAlong t stand l (k + count) result slack.new) }
{
    if !run.sound {
        return run;
    }
    let still = run.plant;
    let aim = fmath::padded(a, n);
    let mut moved = run.plant;
    let mut margin = run.margin;
    let mut at = run.done;
    for _substep in 0..count {
        let next = substep(g, &aim, 8, moved);
        let there = next.p;
        let room = workspace::slack_abreast(w, there, n);
        if !room.sound {
            return ended(moved, still, n, margin, at, false);
        }
        slack[at] = room.value;
        margin = fmath::min(margin, room.value);
        moved = next;
        at += 1;
    }
    ended(moved, still, n, margin, at, true)
}

// One setpoint, held for so many substeps. A single axis is quicker alone.
fn hold(g: Law, w: Workspace, n: usize, a: &[f64], count: usize, run: Run, slack: &mut [f64]) -> Run
    requires { (n ≤ 8) × (n ≤ length a.now) × (run.done + count ≤ length slack.old) × (1 ≤ n) }
    ensures { (result.done ≤ run.done + count) × ((t : Forecast) (stand : ℕ → State) (l : List Float) (k : ℕ) → AlongLeg binary64 (leg_of binary64 g w n a.now) t stand k count run → CameAlong t stand l k run slack.old → CameAlong t stand l (k + count) result slack.new) }
{
    if n == 1 {
        return stepwise(g, w, n, a, count, run, slack);
    }
    abreast(g, w, n, a, count, run, slack)
}

// A run from a given plant under one setpoint, for so many substeps: its slacks are written in order up to the first number that isn't
// finite, and none where it has no room. No setpoint is made, and no stop distance.
pub fn towards(
    g: Law,
    w: Workspace,
    n: usize,
    a: &[f64],
    count: usize,
    start: Plant,
    slack: &mut [f64],
) -> Run
    ensures value { result ≡ (if leg_roomy n (length a.now) count (length slack.old) then leg_run binary64 (leg_of binary64 g w n a.now) start count else no_run start) }
    ensures slack_after { slack.new ≡ (if leg_roomy n (length a.now) count (length slack.old) then written_of (leg binary64 (leg_of binary64 g w n a.now) (state_of start) count) slack.old else slack.old) }
{
    let infinite = 1.0 / 0.0;
    let roomy = (1 <= n) & (n <= 8) & (n <= a.len()) & (count <= slack.len());
    if !roomy {
        return Run {
            plant: start,
            margin: infinite,
            done: 0,
            sound: false,
        };
    }
    let first = Run {
        plant: start,
        margin: infinite,
        done: 0,
        sound: true,
    };
    hold(g, w, n, a, count, first, slack)
}

// The committed rows, each held for its substeps.
fn follow(g: Law, w: Workspace, c: Course, rows: &[f64], run: Run, slack: &mut [f64]) -> Run
    requires { (shaped c (length rows.now) ≡ true) × (run.done + substeps_of (left_of c) c.per ≤ length slack.old) × (1 ≤ c.live) }
    ensures { (result.done ≤ run.done + substeps_of (left_of c) c.per) × ((s : Plant) (l : List Float) → Along binary64 (task_of g w c s rows.now) l 0 run slack.old → Along binary64 (task_of g w c s rows.now) l (substeps_of (left_of c) c.per) result slack.new) }
{
    let left = course::rows_left(c.commit, c.from).0 as usize;
    let per = c.per.0 as usize;
    let mut r = run;
    for i in 0..left {
        let a = chunk::action(rows, c.horizon, c.dim, c.from + i);
        let next = hold(g, w, c.live, a, per, r, slack);
        r = next;
    }
    r
}

fn roomy(c: Course, len: usize, room: usize) -> bool
    ensures { result ≡ roomy c len room }
{
    let n = envelope::substeps_in(course::rows_left(c.commit, c.from), c.brake, c.per);
    let shape = (c.horizon as usize) * (c.dim as usize);
    (c.live <= 8)
        & (c.live <= c.dim as usize)
        & (1 <= c.horizon)
        & (len == shape)
        & (1 <= c.per.0)
        & (n <= room)
        & (1 <= c.live)
}

// The whole run, its slacks written in order up to the first number that isn't finite; none where the course has no room. The setpoint is
// made also where no step brakes towards it.
pub fn rollout(
    g: Law,
    w: Workspace,
    c: Course,
    start: Plant,
    rows: &[f64],
    slack: &mut [f64],
) -> Run
    ensures value { result ≡ (if roomy c (length rows.now) (length slack.old) then rolled_of binary64 (task_of g w c start rows.now) else no_run start) }
    ensures slack_after { slack.new ≡ (if roomy c (length rows.now) (length slack.old) then written_of (forecast binary64 (task_of g w c start rows.now)) slack.old else slack.old) }
{
    let inf = 1.0 / 0.0;
    if !roomy(c, rows.len(), slack.len()) {
        return Run {
            plant: start,
            margin: inf,
            done: 0,
            sound: false,
        };
    }
    let first = Run {
        plant: start,
        margin: inf,
        done: 0,
        sound: true,
    };
    let followed = follow(g, w, c, rows, first, slack);
    let plant = followed.plant;
    let p = plant.p;
    let shape = w.shape;
    let lo = w.lo;
    let hi = w.hi;
    let inside = workspace::inward(shape, Bounds { lo, hi }, p, c.live);
    if !inside.sound {
        return Run {
            plant,
            margin: followed.margin,
            done: followed.done,
            sound: false,
        };
    }
    let setpoint = inside.at;
    let count = envelope::substeps_in(ControlSteps(0), c.brake, c.per);
    hold(g, w, c.live, &setpoint, count, followed, slack)
}

// How far the plant has moved on the first n axes.
pub fn stop_distance(start: Plant, end: Plant, n: usize) -> Reckoned
    ensures { result ≡ reckoned_from (stop_distance binary64 (state_of start) (state_of end) n) }
{
    let from = start.p;
    let to = end.p;
    let value = fmath::distance(&to, &from, n) + 0.0;
    let sound = fmath::finite(value);
    Reckoned { value, sound }
}
