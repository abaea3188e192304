// Tier 0: the geometric limits, on rows as they came, and the projection of each row inside them.
#![tactic(auto)]

ghost use Rattle.std.specs.Prelude.{◌≡◌, true, ◌*◌, ◌≤◌, ◌<◌, length};
ghost use Rattle.std.specs.Float.{binary64};
ghost use Rattle.conformal.specs.Of.{tables};
ghost use Rattle.workspace.specs.Shape.{spans};
ghost use Rattle.tier0.specs.Rule.{check_action};
ghost use Rattle.tier0.specs.Chunk.{check_chunk};
ghost use Rattle.tier0.specs.Of.{checks_from, judged_action_from, judged_chunk_from, action_answer, action_out, chunk_answer, chunk_out};

use crate::measure::{armed, raw_row, start_row};
use crate::projected::{projected_rows, projection};
use crate::refusals::{action_refusal, chunk_refusal};
use crate::trips::{out_of_reach, out_of_workspace, step_rows, too_large, trip_bits};
use crate::walls::{row_masks, rows_masks};
use crate::zone::slow_zone;
use checked::Test;
use chunk::Header;
use envelope::{AbsentCamera, ClampMode, Derived, FuseConfig, TripMask, Zones};
use refusal::Refusal;
use workspace::{Bounds, Shape, WallMasks};

mod measure;
mod projected;
mod refusals;
mod trips;
mod walls;
mod zone;

// The trips, the coordinates that projection moved, the greatest speed and the walls that moved a row.
#[derive(Clone, Copy)]
pub struct Tier0Out {
    pub trips: u32,
    pub clamped_dims: u32,
    pub peak_speed: f64,
    pub walls: WallMasks,
}

// What the checks read of a configuration, and of what is derived from it.
#[derive(Clone, Copy)]
pub struct Checks {
    pub dim: usize,
    pub pos_dim: usize,
    pub armed: u32,
    pub zones: Zones,
    pub absent_camera: AbsentCamera,
    pub clamp: ClampMode,
    pub dt: f64,
    pub a_max: f64,
    pub j_max: f64,
    pub reach_max: f64,
    pub inv_dt: f64,
    pub inv_dt2: f64,
    pub inv_dt3: f64,
    pub step_max: f64,
    pub shape: Shape,
    pub walls: Bounds,
}

// Whether the position is inside a slow zone, or one of some, and the least step that is then allowed. In each struct below, `sound` says that
// each number computed on the way is finite; the contracts give the rest also where it is false, so it stands beside it.
#[derive(Clone, Copy)]
pub struct SlowZone {
    pub inside: bool,
    pub step: f64,
    pub sound: bool,
}

// The differences of rows that have a limit.
#[derive(Clone, Copy)]
pub enum Difference {
    Accel,
    Jerk,
}

// A projected row and the coordinates moved.
#[derive(Clone, Copy)]
pub struct Clamped {
    pub at: [f64; 8],
    pub mask: u32,
    pub sound: bool,
}

// All that is found of one action.
#[derive(Clone, Copy)]
pub struct JudgedAction {
    pub trips: u32,
    pub mask: u32,
    pub peak: f64,
    pub at: [f64; 8],
    pub walls: WallMasks,
    pub sound: bool,
}

// What is found of the steps of a chunk.
#[derive(Clone, Copy)]
pub struct Stride {
    pub peak: f64,
    pub fast: bool,
    pub close: bool,
    pub out: Test,
    pub sound: bool,
}

// The coordinates moved in any row.
#[derive(Clone, Copy)]
pub struct MovedRows {
    pub mask: u32,
    pub sound: bool,
}

// All that is found of a chunk, save its rows.
#[derive(Clone, Copy)]
pub struct JudgedChunk {
    pub trips: u32,
    pub mask: u32,
    pub peak: f64,
    pub walls: WallMasks,
    pub sound: bool,
}

// What the checks read of a configuration and of what is derived from it.
fn checks_of(c: FuseConfig, d: Derived) -> Checks
    ensures { result ≡ checks_from c d }
{
    let l = c.limits;
    let zones = c.zones;
    let absent_camera = c.absent_camera;
    let clamp = c.clamp;
    let shape = c.shape;
    let lo = d.box_lo;
    let hi = d.box_hi;
    Checks {
        dim: c.dim,
        pos_dim: c.pos_dim,
        armed: c.armed,
        zones,
        absent_camera,
        clamp,
        dt: l.dt,
        a_max: l.a_max,
        j_max: l.j_max,
        reach_max: l.reach_max,
        inv_dt: d.inv_dt,
        inv_dt2: d.inv_dt2,
        inv_dt3: d.inv_dt3,
        step_max: d.step_max,
        shape,
        walls: Bounds { lo, hi },
    }
}

// ---- the check of one action

// Trips on the action as it came, its speed, and its projection.
fn judge_action(s: Checks, pos: &[f64], aux: &[f64], prev: &[f64], a: &[f64]) -> JudgedAction
    requires { (s.dim ≤ 8) × (s.dim ≤ length a.now) × (spans s.shape s.dim s.pos_dim ≡ true) }
    ensures { result ≡ judged_action_from (check_action binary64 s pos.now aux.now prev.now a.now) }
{
    let z = slow_zone(s, pos, aux);
    let step = fmath::distance(a, prev, s.dim);
    let peak = step * s.inv_dt;
    let fine = fmath::finite(peak);
    let out = out_of_workspace(s, a);
    let far = out_of_reach(s, pos, a);
    let raw = fmath::padded(a, s.dim);
    let speed = armed(s, TripMask::SPEED);
    let trips = trip_bits(
        out.holds,
        speed & (s.step_max < step),
        false,
        false,
        far.holds,
        z.inside & (z.step < step),
    );
    let inside = out.sound & !out.holds;
    let p = projection(s, z, pos, inside, prev, raw);
    let at = p.at;
    let walls = row_masks(s, out.holds, a);
    JudgedAction {
        trips,
        mask: p.mask,
        peak,
        at,
        walls,
        sound: z.sound & (fine & (out.sound & (far.sound & p.sound))),
    }
}

// The check of the action a against its predecessor: which limits it exceeds, its speed, which walls moved it, and, in out, its
// projection; the rest of out stays. A refusal, by the first number of the order that applies, leaves out as it was.
pub fn check_action(
    c: FuseConfig,
    center: &[f64; 192],
    scale: &[f64; 192],
    pos: &[f64],
    aux: &[f64],
    prev: &[f64],
    a: &[f64],
    out: &mut [f64],
) -> Result<Tier0Out, Refusal>
    ensures { (result ≡ action_answer binary64 c (tables center.now scale.now) pos.now aux.now prev.now a.now (length out.old)) × (out.new ≡ action_out binary64 c (tables center.now scale.now) pos.now aux.now prev.now a.now out.old) }
{
    let compiled = envelope::compile(c, center, scale);
    action_refusal(c, compiled.judged, pos, aux, prev, a, out.len())?;
    let s = checks_of(c, compiled.derived);
    let v = judge_action(s, pos, aux, prev, a);
    Refusal::when(Refusal::COMPUTED, !v.sound)?;
    let at = v.at;
    fmath::put(&at, c.dim, out);
    Ok(Tier0Out {
        trips: v.trips,
        clamped_dims: v.mask,
        peak_speed: v.peak,
        walls: v.walls,
    })
}

// ---- the check of a chunk

// Trips on the rows as they came, the greatest speed, and, over out, the projected rows.
fn judge_chunk(
    s: Checks,
    pos: &[f64],
    aux: &[f64],
    rows: &[f64],
    h: usize,
    out: &mut [f64],
) -> JudgedChunk
    requires { (s.dim ≤ 8) × (s.pos_dim ≤ length pos.now) × (0 < h) × (h ≤ 64) × (h * s.dim ≤ length rows.now) × (h * s.dim ≤ length out.old) }
    ensures { (result ≡ judged_chunk_from (check_chunk binary64 s pos.now aux.now rows.now out.old h)) × (out.new ≡ (check_chunk binary64 s pos.now aux.now rows.now out.old h).value.after.rows) }
{
    let z = slow_zone(s, pos, aux);
    let q = start_row(s, pos, rows);
    let t = step_rows(s, z.step, q, rows, h);
    let peak = t.peak * s.inv_dt;
    let fine = fmath::finite(peak);
    let bent = too_large(s, Difference::Accel, q, rows, h);
    let jolted = too_large(s, Difference::Jerk, q, rows, h);
    let first = raw_row(rows, s.dim, 0);
    let far = out_of_reach(s, pos, &first);
    let speed = armed(s, TripMask::SPEED);
    let trips = trip_bits(
        t.out.holds,
        speed & t.fast,
        bent.holds,
        jolted.holds,
        far.holds,
        z.inside & t.close,
    );
    let inside = t.out.sound & !t.out.holds;
    let p = projected_rows(s, z, pos, inside, rows, q, h, out);
    let rest = bent.sound & (jolted.sound & (far.sound & p.sound));
    let judged = t.sound & (fine & (t.out.sound & rest));
    let walls = rows_masks(s, t.out.holds, rows, h);
    JudgedChunk {
        trips,
        mask: p.mask,
        peak,
        walls,
        sound: z.sound & judged,
    }
}

// The check of a chunk of rows: which limits they exceed, the greatest speed, which walls moved them, and, in out, the projected
// rows; the rest of out stays. A refusal, by the first number of the order that applies, leaves out as it was.
pub fn check_chunk(
    c: FuseConfig,
    center: &[f64; 192],
    scale: &[f64; 192],
    pos: &[f64],
    aux: &[f64],
    rows: &[f64],
    header: Header,
    out: &mut [f64],
) -> Result<Tier0Out, Refusal>
    ensures { (result ≡ chunk_answer binary64 c (tables center.now scale.now) pos.now aux.now rows.now header (length out.old)) × (out.new ≡ chunk_out binary64 c (tables center.now scale.now) pos.now aux.now rows.now header out.old) }
{
    let compiled = envelope::compile(c, center, scale);
    chunk_refusal(c, compiled.judged, pos, aux, rows, header, out.len())?;
    let s = checks_of(c, compiled.derived);
    let h = header.horizon as usize;
    let mut all = [0.0; 512];
    let v = judge_chunk(s, pos, aux, rows, h, &mut all);
    Refusal::when(Refusal::COMPUTED, !v.sound)?;
    fmath::put(&all, h * c.dim, out);
    Ok(Tier0Out {
        trips: v.trips,
        clamped_dims: v.mask,
        peak_speed: v.peak,
        walls: v.walls,
    })
}
