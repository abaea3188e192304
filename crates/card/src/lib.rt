// The desk's cards: a record of 96 bytes is decoded and made a configuration, its forecast is run, and the answer becomes a line of text.
#![tactic(auto)]

mod block;
mod desk;
mod record;
mod text;

pub use block::{Answered, answer_block};
pub use desk::{Answer, answer_of, configure, run};
pub use record::{Card, decode};
