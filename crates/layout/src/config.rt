// The configuration: 53 numbers and 35 counts and codes. The calibration's two tables of 192 are lent as they are.
ghost use Rattle.std.specs.Prelude.{◌≡◌};
ghost use Rattle.layout.specs.Config.{kind_of, clamp_of, absent_camera_of, shape_of, gripper_of, brake_kind_of, channel_of, limits_of, brake_of, zone_of, zones_of, norm_of, walls_of, gate_of, calibration_of, config_of, zone_held, zones_held, codes_fit, choices_fit, fields_fit, counts_fit, derived_flat};

use crate::places::{part, to_u8, to_u16, to_u32};
use conformal::{Calibration, GateSpec};
use envelope::{
    AbsentCamera, ActionKind, Box, BrakeKind, BrakeModel, ClampMode, ControlSteps, Derived,
    FuseConfig, Gripper, Limits, Norm, Substeps, Zone, Zones,
};
use workspace::Shape;

// ---- codes: one that is none gives the last kind, of the choices for an absent camera the slow one, of the shapes the box, and of the modes
// of the gripper the Rust's. A `From` of these numbers would have to stand in the crates of the kinds, which know nothing of C's codes.

fn kind_of(k: u64) -> ActionKind
    ensures { result ≡ kind_of k }
{
    match k {
        0 => ActionKind::EePosition,
        1 => ActionKind::EeDelta,
        2 => ActionKind::JointPosition,
        3 => ActionKind::JointVelocity,
        _ => ActionKind::Other,
    }
}

fn clamp_of(k: u64) -> ClampMode
    ensures { result ≡ clamp_of k }
{
    match k {
        0 => ClampMode::Off,
        _ => ClampMode::Project,
    }
}

fn absent_camera_of(k: u64) -> AbsentCamera
    ensures { result ≡ absent_camera_of k }
{
    match k {
        1 => AbsentCamera::NoZone,
        _ => AbsentCamera::Slow,
    }
}

fn shape_of(k: u64, x: f64, y: f64, radius: f64) -> Shape
    ensures { result ≡ shape_of k x y radius }
{
    match k {
        1 => Shape::Disc { x, y, radius },
        _ => Shape::Box,
    }
}

fn gripper_of(k: u64) -> Gripper
    ensures { result ≡ gripper_of k }
{
    match k {
        1 => Gripper::LastCommand,
        _ => Gripper::ToZero,
    }
}

fn brake_kind_of(k: u64, k_p: f64, k_v: f64, dt: f64) -> BrakeKind
    ensures { result ≡ brake_kind_of k k_p k_v dt }
{
    match k {
        0 => BrakeKind::PdSecondOrder { k_p, k_v, dt },
        1 => BrakeKind::FirstOrderDecay { k_p, k_v, dt },
        2 => BrakeKind::BoundedAccel { k_p, k_v, dt },
        3 => BrakeKind::JerkLimited { k_p, k_v, dt },
        _ => BrakeKind::ZeroVelocityHold { k_p, k_v, dt },
    }
}

// ---- the parts

fn limits_of(n: &[f64; 53]) -> Limits
    ensures { result ≡ limits_of n.now }
{
    Limits {
        dt: n[0],
        v_max: n[1],
        a_max: n[2],
        j_max: n[3],
        reach_max: n[4],
        margin: n[5],
    }
}

fn brake_of(n: &[f64; 53], c: &[u64; 35]) -> BrakeModel
    ensures { result ≡ brake_of n.now c.now }
{
    let kind = brake_kind_of(c[4], n[6], n[7], n[8]);
    let substeps = to_u16(c[8]);
    let commit = to_u16(c[9]);
    let brake_steps = to_u16(c[10]);
    let react_ticks = to_u16(c[11]);
    BrakeModel {
        kind,
        substeps: Substeps(substeps),
        commit: ControlSteps(commit),
        brake_steps: ControlSteps(brake_steps),
        react_ticks,
    }
}

// A channel beside the zone's other one: where either does not fit its field, both become the field's largest and are refused as equal.
fn channel(own: u64, other: u64) -> u8
    ensures { result ≡ channel_of own other }
{
    if other <= 255 { to_u8(own) } else { 255 }
}

fn zone_of(radius: f64, v_max: f64, first: u64, second: u64) -> Option<Zone>
    ensures { result ≡ zone_of radius v_max first second }
{
    let a0 = channel(first, second);
    let a1 = channel(second, first);
    Some(Zone {
        a0,
        a1,
        radius,
        v_max,
    })
}

// The first zone stands among the other fields, the further ones at the arrays' ends.
fn zones_of(n: &[f64; 53], c: &[u64; 35]) -> Zones
    ensures { result ≡ zones_of n.now c.now }
{
    let count = to_u8(c[5]);
    let list = [
        zone_of(n[9], n[10], c[6], c[7]),
        zone_of(n[44], n[45], c[27], c[28]),
        zone_of(n[46], n[47], c[29], c[30]),
        zone_of(n[48], n[49], c[31], c[32]),
    ];
    Zones { count, list }
}

fn norm_of(n: &[f64; 53]) -> Norm
    ensures { result ≡ norm_of n.now }
{
    let center = part(n, 11);
    let scale = part(n, 19);
    Norm { center, scale }
}

fn walls_of(n: &[f64; 53]) -> Box
    ensures { result ≡ walls_of n.now }
{
    let lo = part(n, 27);
    let hi = part(n, 35);
    Box { lo, hi }
}

fn gate_of(c: &[u64; 35]) -> GateSpec
    ensures { result ≡ gate_of c.now }
{
    let n_terms = to_u8(c[24]);
    let terms = [
        to_u32(c[12]),
        to_u32(c[13]),
        to_u32(c[14]),
        to_u32(c[15]),
        to_u32(c[16]),
        to_u32(c[17]),
        to_u32(c[18]),
        to_u32(c[19]),
    ];
    GateSpec { n_terms, terms }
}

fn calibration_of(n: &[f64; 53], c: &[u64; 35]) -> Calibration
    ensures { result ≡ calibration_of n.now c.now }
{
    let mask = to_u32(c[23]);
    let gate = gate_of(c);
    Calibration {
        mask,
        gate,
        tau: n[43],
    }
}

// ---- all of it

// The configuration that the arrays stand for.
pub fn config_of(n: &[f64; 53], c: &[u64; 35]) -> FuseConfig
    ensures { result ≡ config_of n.now c.now }
{
    let kind = kind_of(c[2]);
    let limits = limits_of(n);
    let norm = norm_of(n);
    let walls = walls_of(n);
    let shape = shape_of(c[33], n[50], n[51], n[52]);
    let zones = zones_of(n, c);
    let brake = brake_of(n, c);
    let clamp = clamp_of(c[3]);
    let armed = to_u32(c[20]);
    let calib = calibration_of(n, c);
    let horizon_ticks = to_u32(c[25]);
    let absent_camera = absent_camera_of(c[26]);
    let gripper = gripper_of(c[34]);
    FuseConfig {
        kind,
        dim: c[0] as usize,
        pos_dim: c[1] as usize,
        limits,
        norm,
        walls,
        shape,
        zones,
        absent_camera,
        brake,
        gripper,
        clamp,
        armed,
        aux_count: c[21] as usize,
        calibrated: c[22] == 1,
        calib,
        horizon_ticks,
    }
}

// ---- what fits

// A zone's channels are held by their fields, or are refused by the table, by themselves: they are equal, or one is at or above the declared count.
fn zone_held(first: u64, second: u64, aux: u64) -> bool
    ensures { result ≡ zone_held first second aux }
{
    ((first <= 255) & (second <= 255)) | (first == second) | (aux <= first) | (aux <= second)
}

// Those of each zone that counts.
fn zones_held(c: &[u64; 35]) -> bool
    ensures { result ≡ zones_held c.now }
{
    let n = c[5];
    let aux = c[21];
    let i = zone_held(c[6], c[7], aux);
    let j = zone_held(c[27], c[28], aux);
    let k = zone_held(c[29], c[30], aux);
    let l = zone_held(c[31], c[32], aux);
    ((n < 1) | i) & ((n < 2) | j) & ((n < 3) | k) & ((n < 4) | l)
}

// The codes of kind, clamp and brake, and the flag of the calibration, are ones that there are.
fn codes_fit(c: &[u64; 35]) -> bool
    ensures { result ≡ codes_fit c.now }
{
    (c[2] <= 4) & (c[3] <= 1) & (c[4] <= 4) & (c[22] <= 1)
}

// Each choice is one of its two: for an absent camera, of the shape, and of the gripper's mode.
fn choices_fit(c: &[u64; 35]) -> bool
    ensures { result ≡ choices_fit c.now }
{
    (c[26] <= 1) & (c[33] <= 1) & (c[34] <= 1)
}

// The ticks to react and the trip bits fit their fields.
fn fields_fit(c: &[u64; 35]) -> bool
    ensures { result ≡ fields_fit c.now }
{
    (c[11] <= 65535) & (c[20] <= 4294967295)
}

// All that the table has no row for fits, as far as it is read.
pub fn counts_fit(c: &[u64; 35]) -> bool
    ensures { result ≡ counts_fit c.now }
{
    let codes = codes_fit(c);
    let choices = choices_fit(c);
    let fields = fields_fit(c);
    let zones = zones_held(c);
    codes & choices & fields & zones & ((c[22] == 0) | (c[25] <= 4294967295))
}

// Lays what is derived out in the array.
pub fn put_derived(d: Derived, l: &mut [f64; 29])
    ensures { l.new ≡ derived_flat d }
{
    let lo = d.box_lo;
    let hi = d.box_hi;
    let inv = d.inv_norm_scale;
    *l = [
        d.inv_dt,
        d.inv_dt2,
        d.inv_dt3,
        d.step_max,
        d.norm_scale_iso,
        lo[0],
        lo[1],
        lo[2],
        lo[3],
        lo[4],
        lo[5],
        lo[6],
        lo[7],
        hi[0],
        hi[1],
        hi[2],
        hi[3],
        hi[4],
        hi[5],
        hi[6],
        hi[7],
        inv[0],
        inv[1],
        inv[2],
        inv[3],
        inv[4],
        inv[5],
        inv[6],
        inv[7],
    ];
}
