// Computed numbers: a value, and whether each number computed on the way to it is finite. Refusal 13 is given where it is not.
// `sound` stands beside the value, and no Option in its place, since each contract gives the value also where it is false (`specs/Checked`).
#![tactic(auto)]

// A number.
#[derive(Clone, Copy)]
pub struct Reckoned {
    pub value: f64,
    pub sound: bool,
}

// A row, with zeros up to eight numbers.
#[derive(Clone, Copy)]
pub struct Row {
    pub at: [f64; 8],
    pub sound: bool,
}

// Whether something holds.
#[derive(Clone, Copy)]
pub struct Test {
    pub holds: bool,
    pub sound: bool,
}
