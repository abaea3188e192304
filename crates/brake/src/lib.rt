// The brake's entries: the stopping forecast, a run under one setpoint, and the rows that brake and hold.
#![tactic(auto)]

ghost use Rattle.std.specs.Prelude.{◌≡◌, true, ◌++◌, suc, ◌≤◌, length, if◌then◌else◌};
ghost use Rattle.std.specs.Float.{binary64};
ghost use Rattle.refusal.specs.Order.{judged_by, refusal};
ghost use Rattle.chunk.specs.Refusals.{chunk_reasons};
ghost use Rattle.conformal.specs.Rule.{Tables};
ghost use Rattle.conformal.specs.Of.{tables};
ghost use Rattle.envelope.specs.Refusals.{config_judged};
ghost use Rattle.envelope.specs.Steps.{substeps_in};
ghost use Rattle.workspace.specs.Of.{walls_of};
ghost use Rattle.course.specs.Forecast.{Forecast, written_of};
ghost use Rattle.rollout.specs.Rule as rolling;
ghost use Rattle.course.specs.Of.{left_of};
ghost use Rattle.rollout.specs.Of as rolled;
ghost use Rattle.stopping.specs.Rule as stopping-rule;
ghost use Rattle.stopping.specs.Of as stopped;
ghost use Rattle.brake.specs.Rule.{live, arm_of, forecast_of, ramp, scaled_at, slowed, slower, shorter, brake_row, hold_row, is_position, takes_last, sent_masks};
ghost use Rattle.brake.specs.Answer.{too_short, outcome, lent_judged, forecast_answer, forecast_slacks, last_unfit, row_lent, brake_answer, brake_output, hold_answer, hold_output};
ghost use Rattle.brake.specs.Towards.{gains_in, running, run_lent, run_answer, run_slacks, run_position, run_velocity};
ghost use Rattle.brake.specs.Of.{workspace_from, workspace_for, course_for, start_for, count_for, row_sent_for, Settles, Planned, run_for, Lends};
ghost use Rattle.checked.specs.Each.{at, over};
ghost use Rattle.checked.specs.Of.{row_from, reckoned_from};

use checked::{Reckoned, Row};
use chunk::Header;
use course::{Course, Plant, Run};
use envelope::{ActionKind, BrakeKind, BrakeModel, Derived, FuseConfig, Gripper};
use refusal::Refusal;
use rollout::Law;
use stopping::Arm;
use workspace::{Shape, WallMasks, Workspace};

// A forecast: its slack entries, the least of them, whether none is negative, and how far the arm comes.
#[derive(Clone, Copy)]
pub struct BrakeOut {
    pub count: usize,
    pub margin: f64,
    pub feasible: bool,
    pub stop_dist: f64,
}

// A run under one setpoint: its slack entries and the least of them.
#[derive(Clone, Copy)]
pub struct Ran {
    pub count: usize,
    pub margin: f64,
}

// The shape, and the walls that are derived (R4).
fn workspace_of(shape: Shape, d: Derived) -> Workspace
    ensures { result ≡ workspace_from shape d }
{
    let lo = d.box_lo;
    let hi = d.box_hi;
    Workspace { shape, lo, hi }
}

// ---- the forecast

fn course_of(c: FuseConfig, header: Header, from: usize) -> Course
    ensures { result ≡ course_for c header from }
{
    let live = fmath::fewer(c.dim, c.pos_dim);
    let model = c.brake;
    let commit = model.commit;
    let brake = model.brake_steps;
    let per = model.substeps;
    Course {
        live,
        horizon: header.horizon,
        dim: header.dim,
        from,
        commit,
        brake,
        per,
    }
}

fn arm_of(c: FuseConfig) -> Arm
    ensures { result ≡ arm_of c }
{
    let kind = c.kind;
    let model = c.brake;
    let brake = model.kind;
    Arm {
        kind,
        brake,
        dt: c.limits.dt,
        a_max: c.limits.a_max,
        j_max: c.limits.j_max,
    }
}

// The given start on the axes that move.
fn start_of(c: FuseConfig, pos: &[f64], vel: &[f64]) -> Plant
    requires { c.dim ≤ 8 }
    ensures { result ≡ start_for c pos.now vel.now }
{
    let n = fmath::fewer(c.dim, c.pos_dim);
    let p = fmath::padded(pos, n);
    let v = fmath::padded(vel, n);
    Plant { p, v }
}

// What a run and the stop distance at its end come to: the first number that isn't finite has the place after the entries.
fn settled(run: Run, stop: Reckoned) -> Result<BrakeOut, Refusal>
    requires { run.done ≤ 4096 }
    ensures { (t : Forecast) → Settles t run stop → result ≡ outcome t }
{
    if !run.sound | !stop.sound {
        return Err(Refusal {
            number: Refusal::COMPUTED,
            place: run.done + 1,
        });
    }
    Ok(BrakeOut {
        count: run.done,
        margin: run.margin,
        feasible: 0.0 <= run.margin,
        stop_dist: stop.value,
    })
}

// The second-order brake.
fn second_order(
    g: Law,
    w: Workspace,
    c: Course,
    start: Plant,
    rows: &[f64],
    slack: &mut [f64],
) -> Result<BrakeOut, Refusal>
    requires { (rolled.roomy c (length rows.now) (length slack.old) ≡ true) × (substeps_in (left_of c) c.brake c.per ≤ 4096) }
    ensures { (result ≡ outcome (rolling.forecast binary64 (rolled.task_of g w c start rows.now))) × (slack.new ≡ written_of (rolling.forecast binary64 (rolled.task_of g w c start rows.now)) slack.old) }
{
    let run = rollout::rollout(g, w, c, start, rows, slack);
    let end = run.plant;
    let stop = rollout::stop_distance(start, end, c.live);
    settled(run, stop)
}

// The closed kinds.
fn closed(
    arm: Arm,
    react_ticks: u16,
    w: Workspace,
    c: Course,
    start: Plant,
    rows: &[f64],
    slack: &mut [f64],
) -> Result<BrakeOut, Refusal>
    requires { (stopped.roomy c (length rows.now) (length slack.old) ≡ true) × (suc (left_of c).0 ≤ 4096) }
    ensures { (result ≡ outcome (stopping-rule.forecast binary64 (stopped.task_of arm react_ticks w c start rows.now))) × (slack.new ≡ written_of (stopping-rule.forecast binary64 (stopped.task_of arm react_ticks w c start rows.now)) slack.old) }
{
    let run = stopping::closed_form(arm, react_ticks, w, c, start, rows, slack);
    let end = run.plant;
    let stop = stopping::stop_distance(arm, react_ticks, start, end, c.live);
    settled(run, stop)
}

// The forecast of whichever kind, where nothing that is lent is refused.
fn forecast(
    c: FuseConfig,
    w: Workspace,
    pos: &[f64],
    vel: &[f64],
    rows: &[f64],
    header: Header,
    from: usize,
    slack: &mut [f64],
) -> Result<BrakeOut, Refusal>
    requires { Planned c (length rows.now) header from (length slack.old) × (w ≡ workspace_for binary64 c) }
    ensures { (result ≡ outcome (forecast_of binary64 c pos.now vel.now rows.now header from)) × (slack.new ≡ written_of (forecast_of binary64 c pos.now vel.now rows.now header from) slack.old) }
{
    let course = course_of(c, header, from);
    let start = start_of(c, pos, vel);
    let arm = arm_of(c);
    let model = c.brake;
    let react_ticks = model.react_ticks;
    let kind = model.kind;
    match kind {
        BrakeKind::PdSecondOrder { k_p, k_v, dt } => {
            second_order(Law { k_p, k_v, dt }, w, course, start, rows, slack)
        }
        _ => closed(arm, react_ticks, w, course, start, rows, slack),
    }
}

// How many entries there are if every computed number is finite.
fn entries(brake: BrakeModel, from: usize) -> usize
    ensures { result ≡ count_for brake brake.kind from }
{
    let left = course::rows_left(brake.commit, from);
    let kind = brake.kind;
    match kind {
        BrakeKind::PdSecondOrder {
            k_p: _,
            k_v: _,
            dt: _,
        } => envelope::substeps_in(left, brake.brake_steps, brake.substeps),
        _ => left.0 as usize + 1,
    }
}

// Whether the position or the velocity is shorter than pos_dim, or the entries have too little room.
fn too_short(pos_dim: usize, pos: usize, vel: usize, count: usize, room: usize) -> bool
    ensures { result ≡ too_short pos_dim pos vel count room }
{
    (pos < pos_dim) | (vel < pos_dim) | (room < count)
}

// Why what is lent is refused: by 11 where it is too short, else by 12 where some number is not finite.
fn lengths_and_numbers(short: bool, unfit: bool) -> Result<(), Refusal>
    ensures { result ≡ judged_by (if short then 11 else (if unfit then 12 else 0)) }
{
    Refusal::when(Refusal::SHORT, short)?;
    Refusal::when(Refusal::NOT_FINITE, unfit)
}

// Why what is lent with a forecast is refused: by 10, then by 11, then by 12.
fn lent_refusal(
    c: FuseConfig,
    pos: &[f64],
    vel: &[f64],
    rows: &[f64],
    header: Header,
    from: usize,
    room: usize,
) -> Result<(), Refusal>
    ensures { result ≡ judged_by (refusal (lent_judged binary64 c pos.now vel.now rows.now header from room)) }
{
    let count = entries(c.brake, from);
    let short = too_short(c.pos_dim, pos.len(), vel.len(), count, room);
    let unfit = fmath::some_not_finite(pos, vel, rows);
    let width = Refusal::when(Refusal::WIDTH, header.dim as usize != c.dim);
    Refusal::or_later(width, lengths_and_numbers(short, unfit))
}

// Why a forecast is refused before anything is computed: by what is judged of its configuration, then by the sizes, then by what is lent.
fn forecast_refusal(
    c: FuseConfig,
    config: Result<(), Refusal>,
    pos: &[f64],
    vel: &[f64],
    rows: &[f64],
    header: Header,
    from: usize,
    room: usize,
) -> Result<(), Refusal>
    ensures { (t : Tables) → config ≡ judged_by (refusal (config_judged binary64 c t)) → result ≡ judged_by (refusal (config_judged binary64 c t ++ (chunk_reasons header (length rows.now) ++ lent_judged binary64 c pos.now vel.now rows.now header from room))) }
{
    let sizes = chunk::chunk_refusal(header, rows.len());
    let lent = lent_refusal(c, pos, vel, rows, header, from, room);
    Refusal::or_later(config, Refusal::or_later(sizes, lent))
}

// Whether the arm can still stop inside its workspace: from row `from` through the committed rows and the braking after them. The slack
// entries are filled in order and the rest stays. A computed number that isn't finite is refused with its place, the entries before it
// being written; any other refusal, by the first number of the order that applies, writes nothing.
pub fn brake_feasible(
    c: FuseConfig,
    center: &[f64; 192],
    scale: &[f64; 192],
    pos: &[f64],
    vel: &[f64],
    rows: &[f64],
    header: Header,
    from: usize,
    slack: &mut [f64],
) -> Result<BrakeOut, Refusal>
    ensures { (result ≡ forecast_answer binary64 c (tables center.now scale.now) pos.now vel.now rows.now header from (length slack.old)) × (slack.new ≡ forecast_slacks binary64 c (tables center.now scale.now) pos.now vel.now rows.now header from slack.old) }
{
    let compiled = envelope::compile(c, center, scale);
    let room = slack.len();
    // No `?`: the steps of a proof are named by the call before one, so a wrong refusal handed on could not be told from a right one.
    match forecast_refusal(c, compiled.judged, pos, vel, rows, header, from, room) {
        Err(why) => Err(why),
        Ok(()) => {
            let shape = c.shape;
            let w = workspace_of(shape, compiled.derived);
            forecast(c, w, pos, vel, rows, header, from, slack)
        }
    }
}

// ---- a run under one setpoint

// The gains of whatever brake is configured.
fn law_of(kind: BrakeKind) -> Law
    ensures { rolled.gains_of result ≡ gains_in kind }
{
    match kind {
        BrakeKind::PdSecondOrder { k_p, k_v, dt }
        | BrakeKind::FirstOrderDecay { k_p, k_v, dt }
        | BrakeKind::BoundedAccel { k_p, k_v, dt }
        | BrakeKind::JerkLimited { k_p, k_v, dt }
        | BrakeKind::ZeroVelocityHold { k_p, k_v, dt } => Law { k_p, k_v, dt },
    }
}

// Why a run is refused before anything is computed: by what is judged of its configuration, then by 11, then by 12.
fn run_refusal(
    c: FuseConfig,
    config: Result<(), Refusal>,
    setpoint: &[f64],
    pos: &[f64],
    vel: &[f64],
    n: usize,
    room: usize,
) -> Result<(), Refusal>
    ensures { (t : Tables) → config ≡ judged_by (refusal (config_judged binary64 c t)) → result ≡ judged_by (refusal (config_judged binary64 c t ++ run_lent binary64 c setpoint.now pos.now vel.now n room)) }
{
    let brief = too_short(c.pos_dim, pos.len(), vel.len(), n, room);
    let short = (setpoint.len() < c.dim) | brief;
    let unfit = fmath::some_not_finite(setpoint, pos, vel);
    Refusal::or_later(config, lengths_and_numbers(short, unfit))
}

// The run itself, where nothing that is lent is refused.
fn run_of(
    c: FuseConfig,
    w: Workspace,
    setpoint: &[f64],
    pos: &[f64],
    vel: &[f64],
    n: usize,
    slack: &mut [f64],
) -> Run
    requires { Lends c (length setpoint.now) (length pos.now) (length vel.now) n (length slack.old) × (w ≡ workspace_for binary64 c) }
    ensures { (result ≡ run_for binary64 c setpoint.now pos.now vel.now n) × (slack.new ≡ written_of (running binary64 c setpoint.now pos.now vel.now n) slack.old) }
{
    let start = start_of(c, pos, vel);
    let model = c.brake;
    let kind = model.kind;
    let law = law_of(kind);
    let live = fmath::fewer(c.dim, c.pos_dim);
    rollout::towards(law, w, live, setpoint, n, start, slack)
}

// The first n numbers of a plant, written over those of a position and a velocity.
fn put_plant(end: Plant, n: usize, pos: &mut [f64], vel: &mut [f64])
    requires { (n ≤ 8) × (n ≤ length pos.old) × (n ≤ length vel.old) }
    ensures { (pos.new ≡ over (at end.p) pos.old n) × (vel.new ≡ over (at end.v) vel.old n) }
{
    let p = end.p;
    let v = end.v;
    fmath::put(&p, n, pos);
    fmath::put(&v, n, vel);
}

// n substeps towards one setpoint from the given plant, with the gains of whatever brake is configured: the run that the second-order
// brake's forecast makes towards each row and then towards its own setpoint. The slack entries are filled in order and the rest stays;
// the first min(dim, pos_dim) numbers of position and velocity become the plant's. A computed number that isn't finite is refused with
// its place, the entries before it being written; any other refusal, by the first number of the order that applies, writes nothing.
pub fn run_towards(
    c: FuseConfig,
    center: &[f64; 192],
    scale: &[f64; 192],
    setpoint: &[f64],
    pos: &mut [f64],
    vel: &mut [f64],
    n: usize,
    slack: &mut [f64],
) -> Result<Ran, Refusal>
    ensures { (result ≡ run_answer binary64 c (tables center.now scale.now) setpoint.now pos.old vel.old n (length slack.old)) × (slack.new ≡ run_slacks binary64 c (tables center.now scale.now) setpoint.now pos.old vel.old n slack.old) × (pos.new ≡ run_position binary64 c (tables center.now scale.now) setpoint.now pos.old vel.old n (length slack.old)) × (vel.new ≡ run_velocity binary64 c (tables center.now scale.now) setpoint.now pos.old vel.old n (length slack.old)) }
{
    let compiled = envelope::compile(c, center, scale);
    let room = slack.len();
    run_refusal(c, compiled.judged, setpoint, pos, vel, n, room)?;
    let shape = c.shape;
    let w = workspace_of(shape, compiled.derived);
    let run = run_of(c, w, setpoint, pos, vel, n, slack);
    let written = run.done;
    if !run.sound {
        return Err(Refusal {
            number: Refusal::COMPUTED,
            place: written + 1,
        });
    }
    let live = fmath::fewer(c.dim, c.pos_dim);
    put_plant(run.plant, live, pos, vel);
    Ok(Ran {
        count: written,
        margin: run.margin,
    })
}

// ---- brake and hold

// The part of the velocity that one step of braking leaves.
fn ramp(a_max: f64, dt: f64, vel: &[f64], n: usize) -> Reckoned
    ensures { result ≡ reckoned_from (ramp binary64 a_max dt vel.now n) }
{
    let s = fmath::magnitude(vel, fmath::fewer(n, vel.len()));
    let most = s + 1e-9;
    let left = 1.0 - a_max * dt / most;
    let value = fmath::max(0.0, left);
    let sound = fmath::finite(most) & fmath::finite(left);
    Reckoned { value, sound }
}

// Coordinate j of the velocity times k, 0.0 where there is none.
fn scaled(k: f64, vel: &[f64], j: usize) -> f64
    ensures { result ≡ (scaled_at binary64 k vel.now j).value }
{
    if j < vel.len() { vel[j] * k } else { 0.0 }
}

// The first n coordinates of the velocity times k.
fn slowed(k: f64, vel: &[f64], n: usize) -> Row
    requires { n ≤ 8 }
    ensures { result ≡ row_from (slowed binary64 k vel.now n) }
{
    let mut at = [0.0; 8];
    let mut sound = true;
    for j in 0..n {
        let x = scaled(k, vel, j);
        at[j] = x;
        sound = sound & fmath::finite(x);
    }
    Row { at, sound }
}

// A row of velocities that brakes.
fn slower(a_max: f64, dt: f64, vel: &[f64], n: usize) -> Row
    requires { n ≤ 8 }
    ensures { result ≡ row_from (slower binary64 a_max dt vel.now n) }
{
    let k = ramp(a_max, dt, vel, n);
    let r = slowed(k.value, vel, n);
    let at = r.at;
    let sound = k.sound & r.sound;
    Row { at, sound }
}

// A row of displacements that brakes.
fn shorter(a_max: f64, dt: f64, vel: &[f64], n: usize) -> Row
    requires { n ≤ 8 }
    ensures { result ≡ row_from (shorter binary64 a_max dt vel.now n) }
{
    let k = ramp(a_max, dt, vel, n);
    let m = k.value * dt;
    let fine = fmath::finite(m);
    let r = slowed(m, vel, n);
    let at = r.at;
    let sound = k.sound & (fine & r.sound);
    Row { at, sound }
}

// The row that brakes, by the kind of action.
fn brake_row(
    kind: ActionKind,
    a_max: f64,
    dt: f64,
    w: Workspace,
    pos: &[f64],
    vel: &[f64],
    n: usize,
) -> Row
    requires { n ≤ 8 }
    ensures { result ≡ row_from (brake_row binary64 kind a_max dt (walls_of w) pos.now vel.now n) }
{
    match kind {
        ActionKind::JointVelocity => slower(a_max, dt, vel, n),
        ActionKind::EeDelta => shorter(a_max, dt, vel, n),
        _ => workspace::setpoint(w, pos, n),
    }
}

// The row that holds, by the kind of action.
fn hold_row(kind: ActionKind, w: Workspace, pos: &[f64], n: usize) -> Row
    ensures { result ≡ row_from (hold_row binary64 kind (walls_of w) pos.now n) }
{
    let still = [0.0; 8];
    match kind {
        ActionKind::JointVelocity | ActionKind::EeDelta => Row {
            at: still,
            sound: true,
        },
        _ => workspace::setpoint(w, pos, n),
    }
}

// Neither velocities nor displacements.
fn is_position(kind: ActionKind) -> bool
    ensures { result ≡ is_position kind }
{
    match kind {
        ActionKind::JointVelocity | ActionKind::EeDelta => false,
        _ => true,
    }
}

// Whether the last command is an argument.
fn takes_last(gripper: Gripper) -> bool
    ensures { result ≡ takes_last gripper }
{
    match gripper {
        Gripper::LastCommand => true,
        _ => false,
    }
}

// The row as it is sent: with the last command past pos_dim, where the mode has it and the kind is a position kind.
fn sent_row(
    gripper: Gripper,
    kind: ActionKind,
    pos_dim: usize,
    last: &[f64],
    row: Row,
    n: usize,
) -> Row
    requires { (n ≤ 8) × (takes_last gripper ≡ true → n ≤ length last.now) }
    ensures { result ≡ row_sent_for gripper kind pos_dim last.now row n }
{
    let keeps = takes_last(gripper) & is_position(kind);
    if !keeps {
        return row;
    }
    let mut at = row.at;
    for j in fmath::fewer(pos_dim, n)..n {
        at[j] = last[j];
    }
    let sound = row.sound;
    Row { at, sound }
}

// The walls that move either row, by the kind of action, on the first min(dim, pos_dim) axes.
fn sent_masks(c: FuseConfig, w: Workspace, pos: &[f64]) -> WallMasks
    ensures { result ≡ sent_masks c.kind (walls_of w) pos.now (live c) }
{
    let kind = c.kind;
    let axes = fmath::fewer(c.dim, c.pos_dim);
    match kind {
        ActionKind::JointVelocity | ActionKind::EeDelta => workspace::unmoved(),
        _ => workspace::setpoint_masks(w, pos, axes),
    }
}

// Whether some number of the last command is not finite, in the mode in which it is an argument; in the other it is not read.
fn last_unfit(gripper: Gripper, last: &[f64]) -> bool
    ensures { result ≡ last_unfit gripper last.now }
{
    match gripper {
        Gripper::LastCommand => !fmath::all_finite(last, last.len()),
        _ => false,
    }
}

// Why a row is refused before it is computed: by what is judged of its configuration, then by 11, then by 12.
fn row_refusal(
    c: FuseConfig,
    config: Result<(), Refusal>,
    unfit: bool,
    room: usize,
    given: usize,
) -> Result<(), Refusal>
    ensures { (t : Tables) → config ≡ judged_by (refusal (config_judged binary64 c t)) → result ≡ judged_by (refusal (config_judged binary64 c t ++ row_lent c unfit room given)) }
{
    let gripper = c.gripper;
    let short = (room < c.dim) | (takes_last(gripper) & (given < c.dim));
    Refusal::or_later(config, lengths_and_numbers(short, unfit))
}

// The row that brakes, written over the output's first dim numbers, and which walls moved it, on the first min(dim, pos_dim) axes. The last
// command is judged, and of a position kind written past pos_dim, where the configuration's mode has it, and is no argument where not. A
// refusal, by the first number of the order that applies, writes nothing.
pub fn brake_action(
    c: FuseConfig,
    center: &[f64; 192],
    scale: &[f64; 192],
    pos: &[f64],
    vel: &[f64],
    last: &[f64],
    out: &mut [f64],
) -> Result<WallMasks, Refusal>
    ensures { (result ≡ brake_answer binary64 c (tables center.now scale.now) pos.now vel.now last.now (length out.old)) × (out.new ≡ brake_output binary64 c (tables center.now scale.now) pos.now vel.now last.now out.old) }
{
    let compiled = envelope::compile(c, center, scale);
    let gripper = c.gripper;
    let measured = !fmath::all_finite(pos, pos.len()) | !fmath::all_finite(vel, vel.len());
    let unfit = measured | last_unfit(gripper, last);
    row_refusal(c, compiled.judged, unfit, out.len(), last.len())?;
    let shape = c.shape;
    let w = workspace_of(shape, compiled.derived);
    let kind = c.kind;
    let made = brake_row(kind, c.limits.a_max, c.limits.dt, w, pos, vel, c.dim);
    let row = sent_row(gripper, kind, c.pos_dim, last, made, c.dim);
    Refusal::when(Refusal::COMPUTED, !row.sound)?;
    let at = row.at;
    fmath::put(&at, c.dim, out);
    Ok(sent_masks(c, w, pos))
}

// The row that holds a latched position, likewise.
pub fn hold_action(
    c: FuseConfig,
    center: &[f64; 192],
    scale: &[f64; 192],
    pos: &[f64],
    last: &[f64],
    out: &mut [f64],
) -> Result<WallMasks, Refusal>
    ensures { (result ≡ hold_answer binary64 c (tables center.now scale.now) pos.now last.now (length out.old)) × (out.new ≡ hold_output binary64 c (tables center.now scale.now) pos.now last.now out.old) }
{
    let compiled = envelope::compile(c, center, scale);
    let gripper = c.gripper;
    let unfit = !fmath::all_finite(pos, pos.len()) | last_unfit(gripper, last);
    row_refusal(c, compiled.judged, unfit, out.len(), last.len())?;
    let shape = c.shape;
    let w = workspace_of(shape, compiled.derived);
    let kind = c.kind;
    let made = hold_row(kind, w, pos, c.dim);
    let held = sent_row(gripper, kind, c.pos_dim, last, made, c.dim);
    Refusal::when(Refusal::COMPUTED, !held.sound)?;
    let row = held.at;
    fmath::put(&row, c.dim, out);
    Ok(sent_masks(c, w, pos))
}
