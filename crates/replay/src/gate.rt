// Records of the gate: standardise, then aggregate, then trip, with one row of centres and scales for every time bin.
ghost use Rattle.std.specs.Prelude.{◌≤◌};

use crate::record::{Numbers, Words, exact, part};
use conformal::{Calibration, GateSpec, Scores};
use layout::places::{to_u8, to_u32};
use refusal::Refusal;
use sample::agrees;
use std::array;

// Twelve numbers from word at on, for each of 16 time bins.
fn table(x: &Numbers, at: usize) -> [f64; 192]
    requires { at ≤ 12 }
{
    array::from_fn(|i| x[at + i % 12])
}

fn gate(w: &Words) -> GateSpec {
    GateSpec {
        n_terms: to_u8(w[26]),
        terms: array::from_fn(|i| to_u32(w[27 + i])),
    }
}

fn calibration(w: &Words, x: &Numbers) -> Calibration {
    let gate = gate(w);
    Calibration {
        mask: to_u32(w[25]),
        gate,
        tau: x[24],
    }
}

fn scores(w: &Words, x: &Numbers) -> Scores {
    Scores {
        f: array::from_fn(|i| x[36 + i]),
        z: [0.0; 12],
        s: 0.0,
        valid: to_u32(w[48]),
        fired: 0,
    }
}

// Whether scores and a verdict, 1 for a trip, are those from word 49 on.
fn is_trip(sc: Scores, v: Result<bool, Refusal>, w: &Words, x: &Numbers) -> bool {
    let z = sc.z;
    match v {
        Ok(t) => {
            agrees(part(x, 49, 12), &z)
                & agrees(
                    &[x[61], exact(w[62]), exact(w[63])],
                    &[sc.s, sc.fired as f64, exact(t as u64)],
                )
        }
        Err(_) => false,
    }
}

pub(crate) fn gate_agrees(w: &Words, x: &Numbers) -> bool {
    let cal = calibration(w, x);
    let center = table(x, 0);
    let scale = table(x, 12);
    let one = conformal::standardise(cal, &center, &scale, w[35] as usize, scores(w, x));
    let two = conformal::aggregate(cal, &center, &scale, one.scores);
    let v = conformal::trip(cal, &center, &scale, two.scores);
    (one.refusal.number == 0) & (two.refusal.number == 0) & is_trip(two.scores, v, w, x)
}
