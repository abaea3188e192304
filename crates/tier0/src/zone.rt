// The slow zones.
ghost use Rattle.std.specs.Prelude.{◌≡◌, ◌<◌, length};
ghost use Rattle.std.specs.Float.{binary64};
ghost use Rattle.checked.specs.Checked.{pure};
ghost use Rattle.checked.specs.Of.{test_from};
ghost use Rattle.tier0.specs.Rule.{clear, inside_seen, inside_unseen, inside_zone, zone_in, slowest, slow_zone};
ghost use Rattle.envelope.specs.Slots.{counted, zone_at};
ghost use Rattle.tier0.specs.Of.{zone_from, slower_of};

use crate::measure::armed;
use crate::{Checks, SlowZone};
use checked::Test;
use envelope::{AbsentCamera, TripMask, Zone, Zones};

fn no_zone() -> SlowZone
    ensures { result ≡ zone_from (pure clear) }
{
    SlowZone {
        inside: false,
        step: 0.0,
        sound: true,
    }
}

// Whether the position is inside the zone round the point that channels i and j give.
fn inside_seen(radius: f64, i: usize, j: usize, pos: &[f64], aux: &[f64]) -> Test
    requires { (i < length aux.now) × (j < length aux.now) }
    ensures { result ≡ test_from (inside_seen binary64 radius i j pos.now aux.now) }
{
    let aux_center = [aux[i], aux[j]];
    let far = fmath::distance(pos, &aux_center, 2);
    let sound = fmath::finite(far);
    Test {
        holds: far <= radius,
        sound,
    }
}

// Whether the arm counts as inside a zone that is not seen.
fn inside_unseen(absent_camera: AbsentCamera) -> bool
    ensures { result ≡ inside_unseen absent_camera }
{
    match absent_camera {
        AbsentCamera::Slow => true,
        AbsentCamera::NoZone => false,
    }
}

// Whether the arm is inside a zone. It is seen where the position has two coordinates and aux has both channels.
fn inside_zone(
    absent_camera: AbsentCamera,
    radius: f64,
    i: usize,
    j: usize,
    pos: &[f64],
    aux: &[f64],
) -> Test
    ensures { result ≡ test_from (inside_zone binary64 absent_camera radius i j pos.now aux.now) }
{
    if (2 <= pos.len()) & ((i < aux.len()) & (j < aux.len())) {
        return inside_seen(radius, i, j, pos, aux);
    }
    let holds = inside_unseen(absent_camera);
    Test { holds, sound: true }
}

// One zone; its step is computed only inside.
fn zone_in(
    dt: f64,
    absent_camera: AbsentCamera,
    contact: Option<Zone>,
    pos: &[f64],
    aux: &[f64],
) -> SlowZone
    ensures { result ≡ zone_from (zone_in binary64 dt absent_camera contact pos.now aux.now) }
{
    match contact {
        None => no_zone(),
        Some(zone) => {
            let i = zone.a0 as usize;
            let j = zone.a1 as usize;
            let t = inside_zone(absent_camera, zone.radius, i, j, pos, aux);
            if t.holds {
                let step = zone.v_max * dt;
                let sound = t.sound & fmath::finite(step);
                SlowZone {
                    inside: true,
                    step,
                    sound,
                }
            } else {
                SlowZone {
                    inside: false,
                    step: 0.0,
                    sound: t.sound,
                }
            }
        }
    }
}

// Two findings together: of the zones that the arm is inside, the lesser step.
fn slower(a: SlowZone, b: SlowZone) -> SlowZone
    ensures { result ≡ slower_of a b }
{
    let sound = a.sound & b.sound;
    if !a.inside {
        return SlowZone {
            inside: b.inside,
            step: b.step,
            sound,
        };
    }
    let step = if b.inside {
        fmath::min(a.step, b.step)
    } else {
        a.step
    };
    SlowZone {
        inside: true,
        step,
        sound,
    }
}

// The zones that count, each of them asked.
fn slowest(dt: f64, absent_camera: AbsentCamera, zones: Zones, pos: &[f64], aux: &[f64]) -> SlowZone
    ensures { result ≡ zone_from (slowest binary64 dt absent_camera (zone_at zones) pos.now aux.now (counted zones)) }
{
    let list = zones.list;
    let n = envelope::counted(zones);
    let mut found = no_zone();
    for slot in &list[..n] {
        let z = zone_in(dt, absent_camera, *slot, pos, aux);
        found = slower(found, z);
    }
    found
}

// The slow zones, where CONTACT is armed.
pub(crate) fn slow_zone(s: Checks, pos: &[f64], aux: &[f64]) -> SlowZone
    ensures { result ≡ zone_from (slow_zone binary64 s pos.now aux.now) }
{
    if !armed(s, TripMask::CONTACT) {
        return no_zone();
    }
    let zones = s.zones;
    let absent_camera = s.absent_camera;
    slowest(s.dt, absent_camera, zones, pos, aux)
}
