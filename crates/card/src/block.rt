// A block of records: a line for each whole one, and one for a rest that is none.
ghost use Rattle.std.specs.Prelude.{◌≡◌, ◌+◌, ◌-◌, ◌*◌, ◌/◌, ◌^◌, ◌≤◌, ◌<◌, length};
ghost use Rattle.card.specs.Text.{Put};
ghost use Rattle.card.specs.Block.{line_at, lines, text, fits, answered_for, out_for};

use crate::desk::{answer_of, run};
use crate::record::decode;
use crate::text::put_line;
use refusal::Refusal;

// How many bytes the lines of a block took, and the number of the next record.
#[derive(Clone, Copy)]
pub struct Answered {
    pub bytes: usize,
    pub next: u64,
}

// Puts the line of record n, which starts at from, and answers the place after it.
fn put_card(
    out: &mut [u8],
    at: usize,
    input: &[u8],
    from: usize,
    n: u64,
    slack: &mut [f64],
) -> usize
    requires { (from + 96 ≤ length input.now) × (at + 97 ≤ length out.old) × (length slack.old ≡ 4096) }
    ensures { Put out.old out.new at result (line_at n input.now from) }
{
    let c = decode(&input[from..from + 96]);
    let o = run(c, slack);
    let a = answer_of(o);
    put_line(out, at, n, a.number, a.count, a.margin, a.stop)
}

// Puts the lines of the whole records.
fn put_cards(out: &mut [u8], input: &[u8], first: u64, slack: &mut [f64]) -> usize
    requires { (97 * (length input.now / 96) ≤ length out.old) × (first + length input.now / 96 < 2 ^ 64) × (length slack.old ≡ 4096) }
    ensures { (Put out.old out.new 0 result (lines first input.now (length input.now / 96))) × (result ≤ 97 * (length input.now / 96)) }
{
    let whole = input.len() / 96;
    let mut at: usize = 0;
    for k in 0..whole {
        at = put_card(out, at, input, k * 96, first + k as u64, slack);
    }
    at
}

// Puts the lines of a block for which there is room. There is room for as many slack entries as a forecast can have.
fn put_text(out: &mut [u8], input: &[u8], first: u64) -> usize
    requires { (97 * (length input.now / 96) + 97 ≤ length out.old) × (first + length input.now / 96 < 2 ^ 64) }
    ensures { Put out.old out.new 0 result (text first input.now) }
{
    let mut space = [0.0; 4096];
    let slack: &mut [f64] = &mut space;
    let at = put_cards(out, input, first, slack);
    if input.len() % 96 == 0 {
        return at;
    }
    let n = first + (input.len() / 96) as u64;
    put_line(out, at, n, Refusal::LEFTOVER as u64, 0, 0, 0)
}

// Whether there is room for a line of 97 bytes for each record and one more, and a number for the record after them.
fn fits(room: usize, bytes: usize, first: u64) -> bool
    ensures { result ≡ fits room bytes first }
{
    let whole = bytes / 96;
    (whole < room / 97) & (whole as u64 <= 0xffff_ffff_ffff_ffff - first)
}

// Answers a block, whose records are numbered from first on: a line for each, and one with 14 for a rest. Where the lines may not fit,
// nothing is written and both numbers are 0.
pub fn answer_block(input: &[u8], first: u64, out: &mut [u8]) -> Answered
    ensures { (result ≡ answered_for first input.now (length out.old)) × (out.new ≡ out_for first input.now out.old) × (result.bytes ≤ length out.new) }
{
    if fits(out.len(), input.len(), first) {
        let bytes = put_text(out, input, first);
        let next = first + (input.len() / 96) as u64;
        Answered { bytes, next }
    } else {
        Answered { bytes: 0, next: 0 }
    }
}
