// The closed kinds of brake: a stopping radius at the start and at each committed row, and the slack that it leaves.
#![tactic(auto)]

ghost use Rattle.std.specs.Prelude.{◌≡◌, true, List, ℕ, suc, ◌+◌, ◌≤◌, ◌<◌, length, pos, Float, if◌then◌else◌};
ghost use Rattle.std.specs.Float.{binary64};
ghost use Rattle.std.specs.Float.Ieee.{of_int};
ghost use Rattle.stopping.specs.Rule.{ratio, ramp, ease, d_stop, radius, commanded, command, step, row_at, gain, reaction, stand, stop_distance, forecast};
ghost use Rattle.checked.specs.Of.{row_from, reckoned_from};
ghost use Rattle.stopping.specs.Of.{sum_of, task_of, halted_at, Along, Under, roomy};
ghost use Rattle.checked.specs.Checked.{times, divided};
ghost use Rattle.course.specs.Forecast.{written_of};
ghost use Rattle.course.specs.Of.{state_of, left_of, shaped, run_of, no_run};
ghost use Rattle.course.specs.declared.Plant.{Plant};

use checked::{Reckoned, Row};
use course::{Course, Plant, Run};
use envelope::{ActionKind, BrakeKind};
use workspace::Workspace;

// How the arm takes a row, how it brakes, the control period, and the greatest acceleration and jerk.
#[derive(Clone, Copy)]
pub struct Arm {
    pub kind: ActionKind,
    pub brake: BrakeKind,
    pub dt: f64,
    pub a_max: f64,
    pub j_max: f64,
}

fn quotient(k_p: f64, k_v: f64) -> Reckoned
    ensures { result ≡ reckoned_from (divided binary64 k_p k_v) }
{
    let value = k_p / k_v;
    let sound = fmath::finite(value);
    Reckoned { value, sound }
}

// The gain of a pull towards a position.
fn ratio(brake: BrakeKind) -> Reckoned
    ensures { result ≡ reckoned_from (ratio binary64 brake) }
{
    match brake {
        BrakeKind::PdSecondOrder { k_p, k_v, .. }
        | BrakeKind::FirstOrderDecay { k_p, k_v, .. }
        | BrakeKind::BoundedAccel { k_p, k_v, .. }
        | BrakeKind::JerkLimited { k_p, k_v, .. }
        | BrakeKind::ZeroVelocityHold { k_p, k_v, .. } => quotient(k_p, k_v),
    }
}

fn ramp(a: f64, s: f64) -> Reckoned
    ensures { result ≡ reckoned_from (ramp binary64 a s) }
{
    let twice = 2.0 * a;
    let value = s * s / twice;
    let sound = fmath::finite(twice) & fmath::finite(value);
    Reckoned { value, sound }
}

fn ease(a: f64, j: f64, s: f64) -> Reckoned
    ensures { result ≡ reckoned_from (ease binary64 a j s) }
{
    let twice = 2.0 * j;
    let value = s * a / twice;
    let sound = fmath::finite(twice) & fmath::finite(value);
    Reckoned { value, sound }
}

fn sum(x: Reckoned, y: Reckoned) -> Reckoned
    ensures { result ≡ sum_of binary64 x y }
{
    let value = x.value + y.value;
    let fine = fmath::finite(value);
    let sound = x.sound & (y.sound & fine);
    Reckoned { value, sound }
}

// How far the arm travels from speed s while it brakes.
fn d_stop(brake: BrakeKind, a: f64, j: f64, s: f64) -> Reckoned
    ensures { result ≡ reckoned_from (d_stop binary64 brake a j s) }
{
    match brake {
        BrakeKind::PdSecondOrder { .. } => Reckoned {
            value: 0.0,
            sound: true,
        },
        BrakeKind::FirstOrderDecay { k_v, .. } => quotient(s, k_v),
        BrakeKind::BoundedAccel { .. } | BrakeKind::ZeroVelocityHold { .. } => ramp(a, s),
        BrakeKind::JerkLimited { .. } => sum(ramp(a, s), ease(a, j, s)),
    }
}

// The stopping radius at velocity v, with the time that passes before braking starts.
fn radius(arm: Arm, react: f64, v: [f64; 8], n: usize) -> Reckoned
    ensures { result ≡ reckoned_from (radius binary64 arm.brake arm.a_max arm.j_max react v n) }
{
    let s = fmath::magnitude(&v, n);
    let brake = arm.brake;
    let d = d_stop(brake, arm.a_max, arm.j_max, s);
    let value = d.value + s * react;
    let sound = d.sound & fmath::finite(value);
    Reckoned { value, sound }
}

// The velocity that a row commands on one axis.
fn commanded(kind: ActionKind, dt: f64, g: f64, a: f64, p: f64) -> f64
    ensures { result ≡ (commanded binary64 kind dt g a p).value }
{
    match kind {
        ActionKind::JointVelocity => a,
        ActionKind::EeDelta => a / dt,
        ActionKind::EePosition | ActionKind::JointPosition | ActionKind::Other => g * (a - p),
    }
}

// The velocities that a row commands on the first n axes.
fn command(arm: Arm, g: f64, a: &[f64], s: Plant, n: usize) -> [f64; 8]
    requires { (n ≤ 8) × (n ≤ length a.now) }
    ensures { result ≡ (command binary64 arm.kind arm.dt g a.now (state_of s) n).value }
{
    let kind = arm.kind;
    let p = s.p;
    let mut r = s.v;
    for j in 0..n {
        r[j] = commanded(kind, arm.dt, g, a[j], p[j]);
    }
    r
}

// One Euler step of the first n axes.
fn step(dt: f64, v: [f64; 8], p: [f64; 8], n: usize) -> Row
    requires { n ≤ 8 }
    ensures { result ≡ row_from (step binary64 dt v p n) }
{
    let mut r = p;
    let mut sound = true;
    for j in 0..n {
        let x = p[j] + v[j] * dt;
        r[j] = x;
        sound = sound & fmath::finite(x);
    }
    Row { at: r, sound }
}

// A run that goes no further than it has come.
fn halted(plant: Plant, margin: f64, done: usize) -> Run
    ensures { result ≡ halted_at plant margin done }
{
    Run {
        plant,
        margin,
        done,
        sound: false,
    }
}

// One row more, if the run still goes: its slack is written unless a number on the way isn't finite.
fn row(
    arm: Arm,
    w: Workspace,
    c: Course,
    g: f64,
    react: f64,
    a: &[f64],
    run: Run,
    slack: &mut [f64],
) -> Run
    requires { (c.live ≤ 8) × (c.live ≤ length a.now) × (run.done < length slack.old) }
    ensures { (result.done ≤ run.done + 1) × ((ticks : ℕ) (s : Plant) (rows l : List Float) (k : ℕ) → Under binary64 (task_of arm ticks w c s rows) g react → Along binary64 (task_of arm ticks w c s rows) l (suc k) run slack.old → (run.sound ≡ true → row_at (task_of arm ticks w c s rows) k ≡ a.now) → Along binary64 (task_of arm ticks w c s rows) l (suc k + 1) result slack.new) }
{
    if !run.sound {
        return run;
    }
    let n = c.live;
    let plant = run.plant;
    let p = plant.p;
    let v = command(arm, g, a, plant, n);
    let r = radius(arm, react, v, n);
    let gap = workspace::slack_r(w, r.value, p, n);
    let next = step(arm.dt, v, p, n);
    let there = next.at;
    if !(r.sound & (gap.sound & next.sound)) {
        return halted(plant, run.margin, run.done);
    }
    let at = run.done;
    slack[at] = gap.value;
    let margin = fmath::min(run.margin, gap.value);
    Run {
        plant: Plant { p: there, v },
        margin,
        done: at + 1,
        sound: true,
    }
}

// The committed rows, one after the other.
fn follow(
    arm: Arm,
    w: Workspace,
    c: Course,
    g: f64,
    react: f64,
    rows: &[f64],
    run: Run,
    slack: &mut [f64],
) -> Run
    requires { (shaped c (length rows.now) ≡ true) × (run.done + (left_of c).0 ≤ length slack.old) }
    ensures { (result.done ≤ run.done + (left_of c).0) × ((ticks : ℕ) (s : Plant) (l : List Float) → Under binary64 (task_of arm ticks w c s rows.now) g react → Along binary64 (task_of arm ticks w c s rows.now) l 1 run slack.old → Along binary64 (task_of arm ticks w c s rows.now) l (suc (left_of c).0) result slack.new) }
{
    let left = course::rows_left(c.commit, c.from).0 as usize;
    let mut r = run;
    for i in 0..left {
        let a = chunk::action(rows, c.horizon, c.dim, c.from + i);
        let next = row(arm, w, c, g, react, a, r, slack);
        r = next;
    }
    r
}

// A run that has written the start's entry, unless a number on the way to it isn't finite.
fn begin(
    arm: Arm,
    w: Workspace,
    c: Course,
    g: Reckoned,
    react: Reckoned,
    start: Plant,
    slack: &mut [f64],
) -> Run
    requires { (c.live ≤ 8) × (1 ≤ length slack.old) }
    ensures { (result.done ≤ 1) × ((ticks : ℕ) (rows : List Float) → reckoned_from (gain binary64 (task_of arm ticks w c start rows)) ≡ g → reckoned_from (reaction binary64 (task_of arm ticks w c start rows)) ≡ react → Along binary64 (task_of arm ticks w c start rows) slack.old 1 result slack.new) }
{
    let inf = 1.0 / 0.0;
    let n = c.live;
    let p = start.p;
    let v = start.v;
    let r = radius(arm, react.value, v, n);
    let gap = workspace::slack_r(w, r.value, p, n);
    if !(react.sound & (g.sound & (r.sound & gap.sound))) {
        return halted(start, inf, 0);
    }
    slack[0] = gap.value;
    let margin = fmath::min(inf, gap.value);
    Run {
        plant: start,
        margin,
        done: 1,
        sound: true,
    }
}

// The time before braking starts.
fn reaction(react_ticks: u16, dt: f64) -> Reckoned
    ensures { result ≡ reckoned_from (times binary64 (of_int binary64 (pos react_ticks)) dt) }
{
    let value = (react_ticks as f64) * dt;
    let sound = fmath::finite(value);
    Reckoned { value, sound }
}

fn roomy(c: Course, len: usize, room: usize) -> bool
    ensures { result ≡ roomy c len room }
{
    let left = course::rows_left(c.commit, c.from).0 as usize;
    let shape = (c.horizon as usize) * (c.dim as usize);
    (c.live <= 8) & (c.live <= c.dim as usize) & (1 <= c.horizon) & (len == shape) & (left < room)
}

// The whole run, its slacks written in order up to the first number that isn't finite; none where the course has no room.
pub fn closed_form(
    arm: Arm,
    react_ticks: u16,
    w: Workspace,
    c: Course,
    start: Plant,
    rows: &[f64],
    slack: &mut [f64],
) -> Run
    ensures value { result ≡ (if roomy c (length rows.now) (length slack.old) then run_of (forecast binary64 (task_of arm react_ticks w c start rows.now)) (stand binary64 (task_of arm react_ticks w c start rows.now)) else no_run start) }
    ensures slack_after { slack.new ≡ (if roomy c (length rows.now) (length slack.old) then written_of (forecast binary64 (task_of arm react_ticks w c start rows.now)) slack.old else slack.old) }
{
    let inf = 1.0 / 0.0;
    if !roomy(c, rows.len(), slack.len()) {
        return halted(start, inf, 0);
    }
    let brake = arm.brake;
    let g = ratio(brake);
    let react = reaction(react_ticks, arm.dt);
    let first = begin(arm, w, c, g, react, start, slack);
    follow(arm, w, c, g.value, react.value, rows, first, slack)
}

// How far the plant has moved on the first n axes, and may still travel from the end.
pub fn stop_distance(arm: Arm, react_ticks: u16, start: Plant, end: Plant, n: usize) -> Reckoned
    ensures { result ≡ reckoned_from (stop_distance binary64 arm (times binary64 (of_int binary64 (pos react_ticks)) arm.dt).value (state_of start) (state_of end) n) }
{
    let react = reaction(react_ticks, arm.dt);
    let from = start.p;
    let to = end.p;
    let v = end.v;
    let beyond = radius(arm, react.value, v, n);
    let value = fmath::distance(&to, &from, n) + beyond.value;
    let sound = beyond.sound & fmath::finite(value);
    Reckoned { value, sound }
}
