// The slacks of forecasts, for the desk to draw: records of cards in, a line for each out.
//
// A line has the record's number, the answer's number, how many slacks were written, and each of them as the sixteen hexadecimal digits
// of its bits. The slacks are those of `card::run`, whose contract says what they are. Of the lines only that they end and stay in
// bounds is proved; their text is seen in the runs (tools/test-desk).
#![tactic(auto)]

use brake::BrakeOut;
use refusal::Refusal;
use std::io;

// The bits of a slack, with a space before them.
fn put_slack(to: &impl Print, x: f64) -> bool {
    let bits = words::pattern(x);
    print!(to; " {bits:016x}").is_ok()
}

// The first slacks, until a write fails.
fn put_slacks(to: &impl Print, slacks: &[f64], count: u64) -> bool {
    let n = fmath::fewer(count as usize, slacks.len());
    slacks[..n].iter().all(|x| put_slack(to, *x))
}

// The line of record n; whether all of it was written.
fn put_line(to: &impl Print, n: u64, number: u64, count: u64, slacks: &[f64]) -> bool {
    print!(to; "{n} {number} {count}").is_ok()
        & put_slacks(to, slacks, count)
        & to.print("\n").is_ok()
}

// The line of a whole record. There is room for as many slacks as a forecast can have.
fn put_card(to: &impl Print, n: u64, record: &[u8]) -> bool {
    let mut space = [0.0; 4096];
    let slacks: &mut [f64] = &mut space;
    let card = card::decode(record);
    let outcome: Result<BrakeOut, Refusal> = card::run(card, slacks);
    let answer = card::answer_of(outcome);
    put_line(to, n, answer.number, answer.count, slacks)
}

// The line of a rest that is no record.
fn put_rest(to: &impl Print, n: u64) -> bool {
    put_line(to, n, Refusal::LEFTOVER as u64, 0, &[])
}

// Says on standard error what broke the run off; nothing more is read.
fn complain(to: &impl Eprint, text: &str) -> bool {
    let _ = to.eprintln(text);
    false
}

// Reads record n and puts its line. Whether there may be another.
fn turn<R: io::Read>(from: &mut R, to: &(impl Print + Eprint), n: u64) -> bool {
    let mut space = [0u8; 96];
    let record: &mut [u8] = &mut space;
    let filled = input::fill(from, record);
    if filled.failed {
        return complain(to, "slacks: a read failed");
    }
    if filled.n == 0 {
        return false;
    }
    let whole = filled.n == 96;
    let wrote = if whole {
        put_card(to, n, record)
    } else {
        put_rest(to, n)
    };
    if !wrote {
        return complain(to, "slacks: a write failed");
    }
    whole
}

// Record after record. Their numbers have 64 bits, so the run ends there.
fn main(rt: HostRuntime) {
    let mut stdin = rt.stdin();
    for n in 1..=u64::MAX {
        if !turn(&mut stdin, &rt, n) {
            return;
        }
    }
    complain(&rt, "slacks: the numbers of records ended");
}
