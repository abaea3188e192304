// The guard's configuration, what is derived from it (R4), and why it is refused.
#![tactic(auto)]

ghost use Rattle.std.specs.Prelude.{◌≡◌, ◌<◌, min, not, [], ◌∷◌};
ghost use Rattle.std.specs.Float.{binary64};
ghost use Rattle.refusal.specs.Order.{◌when◌, size, number, steps, channels, shape, withdrawn, judged_by, refusal};
ghost use Rattle.conformal.specs.Of.{tables};
ghost use Rattle.envelope.specs.Derive.{kept, low_walls, high_walls, inverses, isotropic, derived};
ghost use Rattle.envelope.specs.Steps.{substeps_in};
ghost use Rattle.envelope.specs.Slots.{counted};
ghost use Rattle.envelope.specs.Refusals.{sizes_ok, limits_ok, gains_ok, brake_ok, zone_ok, zones_ok, norm_ok, walls_finite, box_ok, scalars_ok, ordered, derived_ok, calibration_ok, numbers_from, counts_ok, steps_ok, channels_ok, same_pair, pair_is_own, zones_fit, features_ok, compiled};

use conformal::Calibration;
use refusal::Refusal;
use workspace::Shape;

// What an action row commands.
#[derive(Clone, Copy)]
pub enum ActionKind {
    EePosition,
    EeDelta,
    JointPosition,
    JointVelocity,
    Other,
}

// Whether rows are projected.
#[derive(Clone, Copy)]
pub enum ClampMode {
    Off,
    Project,
}

// Each kind with the gains k_p and k_v and the length dt of a substep.
#[derive(Clone, Copy)]
pub enum BrakeKind {
    PdSecondOrder { k_p: f64, k_v: f64, dt: f64 },
    FirstOrderDecay { k_p: f64, k_v: f64, dt: f64 },
    BoundedAccel { k_p: f64, k_v: f64, dt: f64 },
    JerkLimited { k_p: f64, k_v: f64, dt: f64 },
    ZeroVelocityHold { k_p: f64, k_v: f64, dt: f64 },
}

// A slow zone round the point that the camera's channels a0 and a1 give.
#[derive(Clone, Copy)]
pub struct Zone {
    pub a0: u8,
    pub a1: u8,
    pub radius: f64,
    pub v_max: f64,
}

// The slow zones of an arm: the first `count` places of the list, at most four. What stands past the count is not read, and a place
// that holds none is no zone.
#[derive(Clone, Copy)]
pub struct Zones {
    pub count: u8,
    pub list: [Option<Zone>; 4],
}

// What a zone counts as that is not seen, since the camera's message is too short for one of its channels or the position has one
// coordinate: one that the arm is inside, or none.
#[derive(Clone, Copy)]
pub enum AbsentCamera {
    Slow,
    NoZone,
}

// What brake and hold of a position kind write on the axes past pos_dim, where a gripper may be: what their box of 0..0 makes of the
// position, or the last command that the caller lends.
#[derive(Clone, Copy)]
pub enum Gripper {
    ToZero,
    LastCommand,
}

// Control steps and substeps are counted apart; `substeps_in` alone joins them.
#[derive(Clone, Copy)]
pub struct ControlSteps(pub u16);

// A part of a control step.
#[derive(Clone, Copy)]
pub struct Substeps(pub u16);

// The bits of the checks, as C lends and is given them.
#[derive(Clone, Copy)]
pub struct TripMask {}

impl TripMask {
    pub const WORKSPACE: u32 = 1;

    pub const SPEED: u32 = 2;

    pub const ACCEL: u32 = 4;

    pub const JERK: u32 = 8;

    pub const REACH: u32 = 16;

    pub const CONTACT: u32 = 32;
}

// The control period dt, the greatest speed, acceleration, jerk and reach, and the margin off the walls.
#[derive(Clone, Copy)]
pub struct Limits {
    pub dt: f64,
    pub v_max: f64,
    pub a_max: f64,
    pub j_max: f64,
    pub reach_max: f64,
    pub margin: f64,
}

// Center and scale of each action coordinate.
#[derive(Clone, Copy)]
pub struct Norm {
    pub center: [f64; 8],
    pub scale: [f64; 8],
}

// The walls of each position axis that has a box.
#[derive(Clone, Copy)]
pub struct Box {
    pub lo: [f64; 8],
    pub hi: [f64; 8],
}

// How the arm brakes, and for how long: committed steps, then braking steps, each of so many substeps.
#[derive(Clone, Copy)]
pub struct BrakeModel {
    pub kind: BrakeKind,
    pub substeps: Substeps,
    pub commit: ControlSteps,
    pub brake_steps: ControlSteps,
    pub react_ticks: u16,
}

// The raw configuration. Where `calibrated` is clear, `calib`, its tables and `horizon_ticks` are not judged; they stand here in either case, since
// `layout::config_of` promises them so.
#[derive(Clone, Copy)]
pub struct FuseConfig {
    pub kind: ActionKind,
    pub dim: usize,
    pub pos_dim: usize,
    pub limits: Limits,
    pub norm: Norm,
    pub walls: Box,
    pub shape: Shape,
    pub zones: Zones,
    pub absent_camera: AbsentCamera,
    pub brake: BrakeModel,
    pub gripper: Gripper,
    pub clamp: ClampMode,
    pub armed: u32,
    pub aux_count: usize,
    pub calibrated: bool,
    pub calib: Calibration,
    pub horizon_ticks: u32,
}

// What is derived from a configuration (R4).
#[derive(Clone, Copy)]
pub struct Derived {
    pub inv_dt: f64,
    pub inv_dt2: f64,
    pub inv_dt3: f64,
    pub step_max: f64,
    pub box_lo: [f64; 8],
    pub box_hi: [f64; 8],
    pub inv_norm_scale: [f64; 8],
    pub norm_scale_iso: f64,
}

// Why a configuration is refused, if it is, and what is derived from it.
#[derive(Clone, Copy)]
pub struct Compiled {
    pub judged: Result<(), Refusal>,
    pub derived: Derived,
}

// ---- the zones

// How many zones count, no more than the list has.
pub fn counted(zones: Zones) -> usize
    ensures { result ≡ counted zones }
{
    (zones.count as usize).min(4)
}

// ---- what is derived

// x where t holds, else 0.0.
fn keep(t: bool, x: f64) -> f64
    ensures { result ≡ kept t x }
{
    if t { x } else { 0.0 }
}

// The walls moved inward on those of the first n axes that have a box, 0.0 on the others.
fn moved_inward(shape: Shape, walls: Box, margin: f64, n: usize) -> Box
    ensures lo { result.lo ≡ low_walls binary64 shape walls.lo margin n }
    ensures hi { result.hi ≡ high_walls binary64 shape walls.hi margin n }
{
    let first = workspace::first_boxed(shape);
    let mut lo = [0.0; 8];
    let mut hi = [0.0; 8];
    for i in 0..8 {
        let on = (first <= i) & (i < n);
        lo[i] = keep(on, walls.lo[i] + margin);
        hi[i] = keep(on, walls.hi[i] - margin);
    }
    Box { lo, hi }
}

// 1 / scale on the first n coordinates, 0.0 past them.
fn inverses(scale: &[f64; 8], n: usize) -> [f64; 8]
    ensures { result ≡ inverses binary64 scale.now n }
{
    let mut inv = [0.0; 8];
    for (i, x) in scale.iter().enumerate() {
        inv[i] = keep(i < n, 1.0 / *x);
    }
    inv
}

// The least of the first n scales, from infinity; of all eight where n is above 8.
fn isotropic(scale: &[f64; 8], n: usize) -> f64
    ensures { result ≡ isotropic scale.now n }
{
    let mut least = 1.0 / 0.0;
    for x in &scale[..n.min(8)] {
        least = fmath::min(least, *x);
    }
    least
}

// The numbers that the checks use, for any configuration: past dim and pos_dim nothing is read, and a dim or
// pos_dim above 8 counts as 8.
#[tactic(auto, unfolding(crate::specs::Derive::derived_from, crate::specs::Derive::inv_dt_of, crate::specs::Derive::inv_dt2_of, crate::specs::Derive::inv_dt3_of, crate::specs::Derive::step_max_of))]
fn derive(c: FuseConfig) -> Derived
    ensures { result ≡ derived binary64 c }
{
    let inv_dt = 1.0 / c.limits.dt;
    let inv_dt2 = inv_dt * inv_dt;
    let shape = c.shape;
    let moved = moved_inward(shape, c.walls, c.limits.margin, c.pos_dim);
    let box_lo = moved.lo;
    let box_hi = moved.hi;
    let inv_norm_scale = inverses(&c.norm.scale, c.dim);
    let norm_scale_iso = isotropic(&c.norm.scale, c.dim);
    Derived {
        inv_dt,
        inv_dt2,
        inv_dt3: inv_dt2 * inv_dt,
        step_max: c.limits.v_max * c.limits.dt,
        box_lo,
        box_hi,
        inv_norm_scale,
        norm_scale_iso,
    }
}

// ---- 1: sizes

// dim, pos_dim, the count of zones and, where the flag is set, the sizes of the calibration.
fn sizes_ok(c: FuseConfig) -> bool
    ensures { result ≡ sizes_ok c }
{
    let k = conformal::sizes_ok(c.calib);
    (1 <= c.dim)
        & (c.dim <= 8)
        & (1 <= c.pos_dim)
        & (c.pos_dim <= 8)
        & (c.zones.count <= 4)
        & (!c.calibrated | k)
}

// ---- 2: numbers

// The control period and the maxima are above 0, the margin is not below 0.
fn limits_ok(l: Limits) -> bool
    ensures { result ≡ limits_ok l }
{
    let a = fmath::above_zero(l.dt);
    let b = fmath::above_zero(l.v_max);
    let c = fmath::above_zero(l.a_max);
    let d = fmath::above_zero(l.j_max);
    let e = fmath::above_zero(l.reach_max);
    let f = fmath::not_below_zero(l.margin);
    a & b & c & d & e & f
}

// k_p may be 0; k_v and the substep may not.
fn gains_ok(k_p: f64, k_v: f64, dt: f64) -> bool
    ensures { result ≡ gains_ok k_p k_v dt }
{
    let a = fmath::not_below_zero(k_p);
    let b = fmath::above_zero(k_v);
    let c = fmath::above_zero(dt);
    a & b & c
}

// The gains of whichever kind.
fn brake_ok(kind: BrakeKind) -> bool
    ensures { result ≡ brake_ok kind }
{
    match kind {
        BrakeKind::PdSecondOrder { k_p, k_v, dt }
        | BrakeKind::FirstOrderDecay { k_p, k_v, dt }
        | BrakeKind::BoundedAccel { k_p, k_v, dt }
        | BrakeKind::JerkLimited { k_p, k_v, dt }
        | BrakeKind::ZeroVelocityHold { k_p, k_v, dt } => gains_ok(k_p, k_v, dt),
    }
}

// A zone may have radius 0, but not speed 0. It is judged whether CONTACT is armed or not.
fn zone_ok(contact: Option<Zone>) -> bool
    ensures { result ≡ zone_ok contact }
{
    match contact {
        None => true,
        Some(zone) => {
            let a = fmath::not_below_zero(zone.radius);
            let b = fmath::above_zero(zone.v_max);
            a & b
        }
    }
}

// Each zone that counts.
fn zones_ok(zones: Zones) -> bool
    ensures { result ≡ zones_ok zones }
{
    let list = zones.list;
    let n = counted(zones);
    let mut ok = true;
    for slot in &list[..n] {
        ok = ok & zone_ok(*slot);
    }
    ok
}

// Entries past dim are not judged.
fn norm_ok(norm: Norm, dim: usize) -> bool
    ensures { result ≡ norm_ok norm dim }
{
    let a = fmath::all_finite(&norm.center, dim);
    let b = fmath::all_above_zero(&norm.scale, dim);
    a & b
}

// Each wall of those of the first n axes that have a box is finite.
fn walls_finite(shape: Shape, walls: [f64; 8], n: usize) -> bool
    ensures { result ≡ walls_finite shape walls n }
{
    if 8 < n {
        return false;
    }
    let first = workspace::first_boxed(shape);
    let mut ok = true;
    for (i, wall) in walls[..n].iter().enumerate() {
        ok = ok & (!(first <= i) | fmath::finite(*wall));
    }
    ok
}

// Entries past pos_dim, and those of an axis without a box, are not judged.
fn box_ok(shape: Shape, walls: Box, pos_dim: usize) -> bool
    ensures { result ≡ box_ok shape walls pos_dim }
{
    let lo = walls.lo;
    let hi = walls.hi;
    let a = walls_finite(shape, lo, pos_dim);
    let b = walls_finite(shape, hi, pos_dim);
    a & b
}

// Each single number that is derived is finite.
fn scalars_ok(d: Derived) -> bool
    ensures { result ≡ scalars_ok d }
{
    let a = fmath::finite(d.inv_dt);
    let b = fmath::finite(d.inv_dt2);
    let c = fmath::finite(d.inv_dt3);
    let e = fmath::finite(d.step_max);
    let f = fmath::finite(d.norm_scale_iso);
    a & b & c & e & f
}

// No low wall exceeds its high wall.
fn ordered<'a>(lo: &'a [f64; 8], hi: &'a [f64; 8]) -> bool
    ensures { result ≡ ordered lo.now hi.now }
{
    let mut ok = true;
    for (low, high) in lo.iter().zip(hi) {
        ok = ok & !(high < low);
    }
    ok
}

// All that is derived is finite, and the walls have not crossed.
fn derived_ok(d: Derived) -> bool
    ensures { result ≡ derived_ok d }
{
    let a = scalars_ok(d);
    let b = fmath::all_finite(&d.box_lo, 8);
    let c = fmath::all_finite(&d.box_hi, 8);
    let e = fmath::all_finite(&d.inv_norm_scale, 8);
    let f = ordered(&d.box_lo, &d.box_hi);
    a & b & c & e & f
}

// The calibration's numbers, where the flag is set.
fn calibration_ok(c: FuseConfig, center: &[f64; 192], scale: &[f64; 192]) -> bool
    ensures { result ≡ calibration_ok c (tables center.now scale.now) }
{
    if c.calibrated {
        conformal::numbers_ok(c.calib, center, scale)
    } else {
        true
    }
}

// All numbers of a configuration, given or derived.
fn numbers_ok(c: FuseConfig, d: Derived, center: &[f64; 192], scale: &[f64; 192]) -> bool
    ensures { result ≡ numbers_from c d (tables center.now scale.now) }
{
    let brake = c.brake;
    let kind = brake.kind;
    let zones = c.zones;
    let shape = c.shape;
    let e = limits_ok(c.limits);
    let f = brake_ok(kind);
    let g = zones_ok(zones);
    let h = norm_ok(c.norm, c.dim);
    let i = workspace::shape_ok(shape);
    let j = box_ok(shape, c.walls, c.pos_dim);
    let k = derived_ok(d);
    let l = calibration_ok(c, center, scale);
    e & f & g & h & i & j & k & l
}

// ---- 3: steps

// How many substeps lie in the committed rows and the braking steps after them: the one place where the two meet.
pub fn substeps_in(rows: ControlSteps, brake: ControlSteps, per: Substeps) -> usize
    ensures { result ≡ substeps_in rows brake per }
{
    (rows.0 as usize + brake.0 as usize) * (per.0 as usize)
}

// 1 to 64 substeps, at most 64 committed steps and at most 4,096 substeps in all, for any u16.
fn counts_ok(brake: BrakeModel) -> bool
    ensures { result ≡ counts_ok brake }
{
    let n = substeps_in(brake.commit, brake.brake_steps, brake.substeps);
    let per = brake.substeps.0;
    (1 <= per) & (per <= 64) & (brake.commit.0 <= 64) & (n <= 4096)
}

// The counts and, where the flag is set, the horizon.
fn steps_ok(c: FuseConfig) -> bool
    ensures { result ≡ steps_ok c }
{
    let a = counts_ok(c.brake);
    a & (!c.calibrated | (0 < c.horizon_ticks))
}

// ---- 4: channels

// A zone's channels differ, and the camera has both.
fn channels_ok(contact: Option<Zone>, aux_count: usize) -> bool
    ensures { result ≡ channels_ok contact aux_count }
{
    match contact {
        None => true,
        Some(zone) => {
            let a0 = zone.a0;
            let a1 = zone.a1;
            (a0 != a1) & ((a0 as usize) < aux_count) & ((a1 as usize) < aux_count)
        }
    }
}

// Two zones name the same channels in the same order.
fn same_pair(one: Option<Zone>, other: Option<Zone>) -> bool
    ensures { result ≡ same_pair one other }
{
    match one {
        None => false,
        Some(a) => match other {
            None => false,
            Some(b) => (a.a0 == b.a0) & (a.a1 == b.a1),
        },
    }
}

// No place before k has the pair of the zone there.
fn pair_is_own(zones: Zones, k: usize) -> bool
    requires { k < 4 }
    ensures { result ≡ pair_is_own zones k }
{
    let list = zones.list;
    let contact = list[k];
    let mut ok = true;
    for before in &list[..k] {
        ok = ok & !same_pair(*before, contact);
    }
    ok
}

// The channels of each zone that counts, and that no two have the same pair.
fn zones_fit(zones: Zones, aux_count: usize) -> bool
    ensures { result ≡ zones_fit zones aux_count }
{
    let list = zones.list;
    let n = counted(zones);
    let mut ok = true;
    for (k, slot) in list[..n].iter().enumerate() {
        let right = channels_ok(*slot, aux_count);
        let own = pair_is_own(zones, k);
        ok = ok & (right & own);
    }
    ok
}

// ---- 17: features

// The calibration's features, where the flag is set.
fn features_ok(c: FuseConfig) -> bool
    ensures { result ≡ features_ok c }
{
    let k = conformal::features_ok(c.calib);
    !c.calibrated | k
}

// ---- all of it, in one pass

// Why a configuration is refused, where each condition of the rule holds or not.
fn judge(
    sizes: bool,
    numbers: bool,
    counts: bool,
    apart: bool,
    spanned: bool,
    features: bool,
) -> Result<(), Refusal>
    ensures { result ≡ judged_by (refusal ((size when not sizes) ∷ (number when not numbers) ∷ (steps when not counts) ∷ (channels when not apart) ∷ (shape when not spanned) ∷ (withdrawn when not features) ∷ [])) }
{
    Refusal::when(Refusal::SIZE, !sizes)?;
    Refusal::when(Refusal::NUMBER, !numbers)?;
    Refusal::when(Refusal::STEPS, !counts)?;
    Refusal::when(Refusal::CHANNELS, !apart)?;
    Refusal::when(Refusal::SHAPE, !spanned)?;
    Refusal::when(Refusal::WITHDRAWN, !features)
}

// Judges a configuration and derives from it, whether it is refused or not. Every condition is computed before one is judged: no early exit stands between their loops.
pub fn compile(c: FuseConfig, center: &[f64; 192], scale: &[f64; 192]) -> Compiled
    ensures { result ≡ compiled binary64 c (tables center.now scale.now) }
{
    let derived = derive(c);
    let sizes = sizes_ok(c);
    let numbers = numbers_ok(c, derived, center, scale);
    let counts = steps_ok(c);
    let apart = zones_fit(c.zones, c.aux_count);
    let spanned = workspace::spans(c.shape, c.dim, c.pos_dim);
    let features = features_ok(c);
    let judged = judge(sizes, numbers, counts, apart, spanned, features);
    Compiled { judged, derived }
}
