// What both kinds of run share: the plant, the course that it is sent on, and how far it has come.
#![tactic(auto)]

ghost use Rattle.std.specs.Prelude.{◌≡◌};
ghost use Rattle.course.specs.Rows.{rows_left};

use envelope::{ControlSteps, Substeps};

// Where the arm is and how fast it moves, axis by axis.
#[derive(Clone, Copy)]
pub struct Plant {
    pub p: [f64; 8],
    pub v: [f64; 8],
}

// The live axes, the shape of the rows, and how far the run goes.
#[derive(Clone, Copy)]
pub struct Course {
    pub live: usize,
    pub horizon: u16,
    pub dim: u16,
    pub from: usize,
    pub commit: ControlSteps,
    pub brake: ControlSteps,
    pub per: Substeps,
}

// How far a run has come: the plant, the least slack, the entries written, and whether each number so far is finite. The first three are promised also
// of a run that stopped (`CameAlong`), so `sound` stands beside them.
#[derive(Clone, Copy)]
pub struct Run {
    pub plant: Plant,
    pub margin: f64,
    pub done: usize,
    pub sound: bool,
}

// The control steps still committed from a row on: none past them.
pub fn rows_left(commit: ControlSteps, from: usize) -> ControlSteps
    ensures { result.0 ≡ (rows_left commit from).0 }
{
    if (commit.0 as usize) <= from {
        return ControlSteps(0);
    }
    ControlSteps(commit.0 - from as u16)
}
