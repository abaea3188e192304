// A record of the sample: its words, by their places in tests/oracle-sample/README.md, and the numbers that they stand for.
use chunk::Header;
use layout::places::{to_u16, to_u32};

// A word that is no part of the record is 0.
pub(crate) type Words = [u64; 358];

pub(crate) type Numbers = [f64; 358];

#[derive(Clone, Copy)]
pub(crate) struct Record {
    pub(crate) words: Words,
    pub(crate) numbers: Numbers,
}

// The record that the first bytes stand for, where zeros follow them. One loop fills both arrays: by `from_fn` each would be zeroed and copied once more.
pub(crate) fn record_of(b: &[u8; 4096]) -> Record {
    let mut words: Words = [0; 358];
    let mut numbers: Numbers = [0.0; 358];
    for i in 0..358 {
        let w = words::word(b, (8 * i) as u32);
        words[i] = w;
        numbers[i] = words::float_of(w);
    }
    Record { words, numbers }
}

// The n numbers from word at on, or as many as there are.
pub(crate) fn part(x: &Numbers, at: u16, n: u64) -> &[f64] {
    let all = &x[..];
    let from = fmath::fewer(at as usize, 358);
    let end = from + fmath::fewer(n as usize, 358 - from);
    &all[from..end]
}

// What a record says of a chunk besides its rows: when it was emitted, and its sizes; no row of it is executed.
pub(crate) fn header(t_emit: u64, horizon: u64, dim: u64) -> Header {
    Header {
        seq: 0,
        t_emit: to_u32(t_emit),
        horizon: to_u16(horizon),
        dim: to_u16(dim),
        exec_steps: 0,
    }
}

// The rows of a chunk, from word at on.
pub(crate) fn rows_of(x: &Numbers, at: u16, k: Header) -> &[f64] {
    chunk::held_rows(part(x, at, 32), k.horizon, k.dim, true)
}

// A count of an answer as a number. One of more than 32 bits is none, and agrees with nothing.
pub(crate) fn exact(n: u64) -> f64 {
    if n < 4294967296 {
        let k = n as u32;
        return k as f64;
    }
    0.0 / 0.0
}
