// One action checked, for the desk to try: a record from standard input, one line to standard output.
//
// A record has 122 little-endian words: the 53 numbers and the 35 counts of a configuration, in the places of include/lictor.h; the
// position, how many numbers it has and eight of them; the camera's, likewise; eight of the row before, and eight of the action. The line
// is the refusal's number or, accepted, 0 with the trips, the moved coordinates, the peak speed and the projected row, whose numbers are
// the sixteen hexadecimal digits of their bits, and the masks of the low and the high walls that moved it. The answer is that of
// `tier0::check_action`, whose contract says what it is. Of the line only that it ends and stays in bounds is proved; its text is seen in the
// runs (tools/test-desk).
#![tactic(auto)]

use envelope::FuseConfig;
use refusal::Refusal;
use std::array;
use tier0::Tier0Out;

type Words = [u64; 122];

type Numbers = [f64; 122];

// A record's words, and the numbers that they stand for.
#[derive(Clone, Copy)]
struct Record {
    words: Words,
    numbers: Numbers,
}

// The record that bytes stand for; a byte that is not there counts as 0.
fn record_of(b: &[u8]) -> Record {
    let words: Words = array::from_fn(|i| words::word(b, (8 * i) as u32));
    let numbers = words.map(words::float_of);
    Record { words, numbers }
}

// The n numbers from word at on, or as many as there are.
fn part(x: &Numbers, at: u16, n: u64) -> &[f64] {
    let all = &x[..];
    let from = fmath::fewer(at as usize, 122);
    let end = from + fmath::fewer(n as usize, 122 - from);
    &all[from..end]
}

// The numbers of its configuration.
fn config_numbers(x: &Numbers) -> [f64; 53] {
    array::from_fn(|i| x[i])
}

// Its counts and codes.
fn config_counts(w: &Words) -> [u64; 35] {
    array::from_fn(|i| w[53 + i])
}

fn say(to: &impl Print, text: &str) -> bool {
    to.print(text).is_ok()
}

fn say_count(to: &impl Print, n: u64) -> bool {
    to.print(n).is_ok()
}

// The bits of a number, with a space before them.
fn say_number(to: &impl Print, x: f64) -> bool {
    let bits = words::pattern(x);
    print!(to; " {bits:016x}").is_ok()
}

fn say_row(to: &impl Print, row: &[f64; 8]) -> bool {
    row.iter().fold(true, |wrote, x| wrote & say_number(to, *x))
}

fn say_refusal(to: &impl Print, r: Refusal) -> bool {
    say_count(to, r.number as u64) & say(to, "\n")
}

// The line of an answer; whether it was written.
fn say_answer(to: &impl Print, a: Result<Tier0Out, Refusal>, row: &[f64; 8]) -> bool {
    match a {
        Ok(found) => {
            let walls = found.walls;
            say(to, "0 ")
                & say_count(to, found.trips as u64)
                & say(to, " ")
                & say_count(to, found.clamped_dims as u64)
                & say_number(to, found.peak_speed)
                & say_row(to, row)
                & say(to, " ")
                & say_count(to, walls.low as u64)
                & say(to, " ")
                & say_count(to, walls.high as u64)
                & say(to, "\n")
        }
        Err(r) => say_refusal(to, r),
    }
}

// Checks the record's action and says the answer. A count or a code that no configuration has is 255, as for callers in C. No calibration is
// there, and neither table of one is read.
fn answer(to: &impl Print, w: &Words, x: &Numbers) -> bool {
    let n = config_numbers(x);
    let k = config_counts(w);
    if !layout::config::counts_fit(&k) {
        return say(to, "255\n");
    }
    let c: FuseConfig = layout::config::config_of(&n, &k);
    let t = [0.0; 192];
    let pos = part(x, 89, w[88]);
    let aux = part(x, 98, w[97]);
    let prev = part(x, 106, w[53]);
    let act = part(x, 114, w[53]);
    let mut out = [0.0; 8];
    let a = tier0::check_action(c, &t, &t, pos, aux, prev, act, &mut out);
    say_answer(to, a, &out)
}

fn complain(to: &impl Eprint, text: &str) {
    let _ = to.eprintln(text);
}

fn main(rt: HostRuntime) {
    let mut space = [0u8; 976];
    let bytes: &mut [u8] = &mut space;
    let f = input::fill(&mut rt.stdin(), bytes);
    if f.failed {
        complain(&rt, "tries: a read failed");
        return;
    }
    if f.n < 976 {
        complain(&rt, "tries: the input ends inside the record");
        return;
    }
    let r = record_of(bytes);
    let w = r.words;
    let x = r.numbers;
    if !answer(&rt, &w, &x) {
        complain(&rt, "tries: a write failed");
    }
}
