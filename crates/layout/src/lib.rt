// The flat arrays that C lends, taken apart into the port's structs and laid out again. Taking apart is total: a count that its field
// cannot hold is cut to the field's largest, which the table (R0) refuses where it refuses the count. Codes, flags and the
// counts of which that is not so are judged by a test of their own.
#![tactic(auto)]

pub mod chunks;
pub mod config;
pub mod places;
pub mod scores;
pub mod states;
pub mod trails;
