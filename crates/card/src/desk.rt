// A card as a configuration, its forecast, and what the desk is answered.
ghost use Rattle.std.specs.Prelude.{◌≡◌, ◌-◌, length, replicate};
ghost use Rattle.checked.specs.Constants.{1! };
ghost use Rattle.envelope.specs.Slots.{no_zones};
ghost use Rattle.card.specs.Desk.{calibration_of, brake_of, walls_of, limits_of, norm_of, config_of, outcome_of, slacks_of, count_of, answer_for};

use crate::record::Card;
use brake::BrakeOut;
use chunk::Header;
use conformal::{Calibration, GateSpec};
use envelope::{
    AbsentCamera, ActionKind, Box, BrakeKind, BrakeModel, ClampMode, ControlSteps, FuseConfig,
    Gripper, Limits, Norm, Substeps, Zones,
};
use refusal::Refusal;
use words::{float_of, pattern};
use workspace::Shape;

// What a line says: the answer's number, the count and, where it is accepted, the bits of the margin and of the stop distance.
#[derive(Clone, Copy)]
pub struct Answer {
    pub number: u64,
    pub count: u64,
    pub margin: u64,
    pub stop: u64,
}

// ---- the configuration

// A calibration that the clear flag beside it leaves unread, as it does the tables.
fn calibration() -> Calibration
    ensures { result ≡ calibration_of }
{
    let gate = GateSpec::DISARMED;
    Calibration {
        mask: 0,
        gate,
        tau: 1.0,
    }
}

fn limits() -> Limits
    ensures { result ≡ limits_of }
{
    Limits {
        dt: 1.0,
        v_max: 1.0,
        a_max: 1.0,
        j_max: 1.0,
        reach_max: 1.0,
        margin: 0.0,
    }
}

fn norm() -> Norm
    ensures { result ≡ norm_of }
{
    Norm {
        center: [1.0; 8],
        scale: [1.0; 8],
    }
}

// The card's box.
fn walls(c: Card) -> Box
    ensures { result ≡ walls_of c }
{
    let lo = float_of(c.lo);
    let hi = float_of(c.hi);
    Box {
        lo: [lo; 8],
        hi: [hi; 8],
    }
}

// The card's gains and counts.
fn brake(c: Card) -> BrakeModel
    ensures { result ≡ brake_of c }
{
    let k_p = float_of(c.k_p);
    let k_v = float_of(c.k_v);
    let dt = float_of(c.dt);
    BrakeModel {
        kind: BrakeKind::PdSecondOrder { k_p, k_v, dt },
        substeps: Substeps(c.substeps),
        commit: ControlSteps(c.commit),
        brake_steps: ControlSteps(c.brake_steps),
        react_ticks: 1,
    }
}

fn no_zones() -> Zones
    ensures { result ≡ no_zones }
{
    Zones {
        count: 0,
        list: [None; 4],
    }
}

// The configuration of a card: one axis, PD, nothing armed, and every number that the card does not give 1.0, save the margin, 0.
pub fn configure(c: Card) -> FuseConfig
    ensures { result ≡ config_of c }
{
    let limits = limits();
    let norm = norm();
    let walls = walls(c);
    let zones = no_zones();
    let brake = brake(c);
    let calib = calibration();
    FuseConfig {
        kind: ActionKind::EePosition,
        dim: 1,
        pos_dim: 1,
        limits,
        norm,
        walls,
        shape: Shape::Box,
        zones,
        absent_camera: AbsentCamera::Slow,
        brake,
        gripper: Gripper::ToZero,
        clamp: ClampMode::Off,
        armed: 0,
        aux_count: 0,
        calibrated: false,
        calib,
        horizon_ticks: 1,
    }
}

// ---- the forecast

// Either table of the calibration.
fn table() -> [f64; 192]
    ensures { result ≡ replicate 192 1! }
{
    [1.0; 192]
}

// The forecast of a card: four rows of one number, one of them to be executed.
pub fn run(c: Card, slack: &mut [f64]) -> Result<BrakeOut, Refusal>
    ensures { (result ≡ outcome_of c (length slack.old)) × (slack.new ≡ slacks_of c slack.old) }
{
    let config = configure(c);
    let table = table();
    let p = [float_of(c.p)];
    let v = [float_of(c.v)];
    let r0 = float_of(c.row0);
    let r1 = float_of(c.row1);
    let r2 = float_of(c.row2);
    let r3 = float_of(c.row3);
    let rows = [r0, r1, r2, r3];
    let from = c.from as usize;
    let header = Header {
        seq: 0,
        t_emit: 0,
        horizon: 4,
        dim: 1,
        exec_steps: 1,
    };
    brake::brake_feasible(config, &table, &table, &p, &v, &rows, header, from, slack)
}

// ---- the answer

fn before(place: usize) -> u64
    ensures { result ≡ place - 1 }
{
    if 0 < place { (place - 1) as u64 } else { 0 }
}

// How many entries a refusal leaves written: those before the place of a computed number, else none.
fn written(number: u8, place: usize) -> u64
    ensures { result ≡ count_of number place }
{
    if number == Refusal::COMPUTED {
        before(place)
    } else {
        0
    }
}

// What the desk is answered.
pub fn answer_of(o: Result<BrakeOut, Refusal>) -> Answer
    ensures { result ≡ answer_for o }
{
    match o {
        Ok(forecast) => Answer {
            number: 0,
            count: forecast.count as u64,
            margin: pattern(forecast.margin),
            stop: pattern(forecast.stop_dist),
        },
        Err(r) => Answer {
            number: r.number as u64,
            count: written(r.number, r.place),
            margin: 0,
            stop: 0,
        },
    }
}
