// Replays the sample of the Rust's answers from standard input, and says for each entry how many records the port agrees with.
//
// It is a test: what it says is seen in its runs (tools/test-replay), and only that it ends and stays in bounds is proved.
#![tactic(auto)]

ghost use Rattle.std.specs.Prelude.{◌≤◌};

use crate::arithmetic::{dist_agrees, norm_agrees, sqrt_agrees, time_bin_agrees};
use crate::checks::{check_action_agrees, check_chunk_agrees};
use crate::config::derive_agrees;
use crate::features::features_agree;
use crate::gate::gate_agrees;
use crate::record::{Numbers, Record, Words, record_of};
use crate::stops::{forecast_agrees, rows_agree};
use std::io;

mod arithmetic;
mod checks;
mod config;
mod features;
mod gate;
mod record;
mod stops;

// The entries of the sample.
#[derive(Clone, Copy)]
enum Entry {
    Sqrt,
    Norm,
    Dist,
    TimeBin,
    Gate,
    Derive,
    CheckChunk,
    CheckAction,
    Forecast,
    Rows,
    Features,
}

// Why a record is not there: the input ended before it or inside it, or a read failed.
#[derive(Clone, Copy)]
enum Cut {
    Ended,
    Failed,
}

// How many records were replayed, how many of them agreed, and the number of the first that did not; what cut them short; and whether all
// lines were written.
#[derive(Clone, Copy)]
struct Tally {
    seen: u64,
    agreed: u64,
    first: Option<u64>,
    cut: Option<Cut>,
    wrote: bool,
}

// How many words a record has.
fn words_of(entry: Entry) -> usize
    ensures { result ≤ 358 }
{
    match entry {
        Entry::Sqrt => 2,
        Entry::Norm => 13,
        Entry::Dist => 24,
        Entry::TimeBin => 3,
        Entry::Gate => 64,
        Entry::Derive => 86,
        Entry::CheckChunk => 144,
        Entry::CheckAction => 102,
        Entry::Forecast => 146,
        Entry::Rows => 91,
        Entry::Features => 358,
    }
}

// Whether the port answers what a record of an entry has as the Rust's answer.
fn agrees(entry: Entry, w: &Words, x: &Numbers) -> bool {
    match entry {
        Entry::Sqrt => sqrt_agrees(x),
        Entry::Norm => norm_agrees(w, x),
        Entry::Dist => dist_agrees(w, x),
        Entry::TimeBin => time_bin_agrees(w),
        Entry::Gate => gate_agrees(w, x),
        Entry::Derive => derive_agrees(w, x),
        Entry::CheckChunk => check_chunk_agrees(w, x),
        Entry::CheckAction => check_action_agrees(w, x),
        Entry::Forecast => forecast_agrees(w, x),
        Entry::Rows => rows_agree(w, x),
        Entry::Features => features_agree(w, x),
    }
}

// Nothing replayed yet.
fn start() -> Tally {
    Tally {
        seen: 0,
        agreed: 0,
        first: None,
        cut: None,
        wrote: true,
    }
}

// The tally after one more record.
fn told(t: Tally, ok: bool) -> Tally {
    let mut u = t;
    u.seen = t.seen.wrapping_add(1);
    if ok {
        u.agreed = t.agreed.wrapping_add(1);
    } else {
        u.first = t.first.or(Some(u.seen));
    }
    u
}

// The same, with the record judged.
fn judged(entry: Entry, r: Record, t: Tally) -> Tally {
    let w = r.words;
    let x = r.numbers;
    told(t, agrees(entry, &w, &x))
}

// Reads the next n words of the input over the first bytes of a buffer, which has room for the longest record. A record inside the `Ok` would be copied again.
fn next_record<R: io::Read>(from: &mut R, n: usize, space: &mut [u8; 4096]) -> Result<(), Cut>
    requires { n ≤ 358 }
{
    let size = 8 * n;
    let f = input::fill(from, &mut space[..size]);
    if f.n == size {
        Ok(())
    } else if f.failed {
        Err(Cut::Failed)
    } else {
        Err(Cut::Ended)
    }
}

// Replays so many records of an entry, until the input ends. They are all as long, so that the zeros behind the first stay.
fn replay<R: io::Read>(from: &mut R, entry: Entry, count: u64) -> Tally {
    let n = words_of(entry);
    let mut space = [0u8; 4096];
    let mut t = start();
    for _ in 0..count {
        match next_record(from, n, &mut space) {
            Ok(()) => t = judged(entry, record_of(&space), t),
            Err(cut) => {
                return Tally {
                    cut: Some(cut),
                    ..t
                };
            }
        }
    }
    t
}

// Replays an entry, which begins with the number of its records.
fn replay_entry<R: io::Read>(from: &mut R, entry: Entry) -> Tally {
    let mut space = [0u8; 4096];
    match next_record(from, 1, &mut space) {
        Ok(()) => replay(from, entry, words::word(&space, 0)),
        Err(cut) => Tally {
            cut: Some(cut),
            ..start()
        },
    }
}

// What cut two entries short. A read that failed counts more than an end, which may come of it.
fn cut_of(a: Option<Cut>, b: Option<Cut>) -> Option<Cut> {
    match (a, b) {
        (Some(Cut::Failed), _) | (_, Some(Cut::Failed)) => Some(Cut::Failed),
        (Some(Cut::Ended), _) | (_, Some(Cut::Ended)) => Some(Cut::Ended),
        (None, None) => None,
    }
}

// One entry more, whose line was written or not. No record is named: each entry numbers its own. A sum wraps past 2^64 records, more than can be read.
fn joined(a: Tally, b: Tally, wrote: bool) -> Tally {
    Tally {
        seen: a.seen.wrapping_add(b.seen),
        agreed: a.agreed.wrapping_add(b.agreed),
        first: None,
        cut: cut_of(a.cut, b.cut),
        wrote: a.wrote & wrote,
    }
}

fn put_counts(to: &impl Print, name: &str, t: Tally) -> bool {
    print!(to; "{name}: {} replayed, {} agree", t.seen, t.agreed).is_ok()
}

fn put_first(to: &impl Print, t: Tally) -> bool {
    match t.first {
        Some(n) => print!(to; ", the first difference in record {n}").is_ok(),
        None => true,
    }
}

fn put_input(to: &impl Print, t: Tally) -> bool {
    match t.cut {
        Some(Cut::Failed) => to.print(", a read failed").is_ok(),
        Some(Cut::Ended) => to.print(", the input ended").is_ok(),
        None => true,
    }
}

// The line of an entry; whether it was written.
fn say(to: &impl Print, name: &str, t: Tally) -> bool {
    put_counts(to, name, t) & put_first(to, t) & put_input(to, t) & to.print("\n").is_ok()
}

// Replays an entry, says its line, and gives the tally of all entries so far.
fn add<R: io::Read>(from: &mut R, to: &impl Print, name: &str, entry: Entry, all: Tally) -> Tally {
    let t = replay_entry(from, entry);
    let wrote = say(to, name, t);
    joined(all, t, wrote)
}

// The entries, in the order that tests/oracle-sample/README.md gives.
fn add_helpers<R: io::Read>(from: &mut R, to: &impl Print, all: Tally) -> Tally {
    let a = add(from, to, "sqrt", Entry::Sqrt, all);
    let b = add(from, to, "norm", Entry::Norm, a);
    let c = add(from, to, "dist", Entry::Dist, b);
    add(from, to, "time_bin", Entry::TimeBin, c)
}

fn add_checks<R: io::Read>(from: &mut R, to: &impl Print, all: Tally) -> Tally {
    let a = add(from, to, "standardise, aggregate, trip", Entry::Gate, all);
    let b = add(from, to, "derive", Entry::Derive, a);
    let c = add(from, to, "check_chunk", Entry::CheckChunk, b);
    add(from, to, "check_action", Entry::CheckAction, c)
}

fn add_stops<R: io::Read>(from: &mut R, to: &impl Print, all: Tally) -> Tally {
    let a = add(from, to, "brake_feasible", Entry::Forecast, all);
    let b = add(from, to, "brake_action, hold_action", Entry::Rows, a);
    add(from, to, "features", Entry::Features, b)
}

fn complain(to: &impl Eprint, text: &str) {
    let _ = to.eprintln(text);
}

// What broke the replay off is said on standard error, in one line.
fn main(rt: HostRuntime) {
    let mut stdin = rt.stdin();
    let helpers = add_helpers(&mut stdin, &rt, start());
    let checks = add_checks(&mut stdin, &rt, helpers);
    let all = add_stops(&mut stdin, &rt, checks);
    let wrote = say(&rt, "in all", all);
    if !(all.wrote & wrote) {
        complain(&rt, "replay: a write failed");
    } else if let Some(Cut::Failed) = all.cut {
        complain(&rt, "replay: a read failed");
    }
}
