// Blocks read from a reader, as standard input is one.
//
// What the system gives to a read no contract can say. The answers of the reads are kept as they came, and every contract says what follows from
// them. Of a reader whose bytes are known, as one over memory, the contracts say besides that these bytes stand in the block, in order.
#![tactic(auto)]

ghost use Rattle.std.specs.Prelude.{◌≡◌, ◌+◌, ◌^◌, ◌≤◌, ◌<◌, length, take, drop, IfOk};
ghost use Rattle.std.specs.Io.KnownBytes.{Consumes};
ghost use Rattle.input.specs.Reads.{answer, given, after, Read, reads_on, Fills, HasEnded, EndsShort, answered};

use std::io;

// How many bytes a block holds, how many of them the last read gave, and whether it failed: the bytes are promised then, too (`Fills`).
#[derive(Clone, Copy)]
pub struct Filled {
    pub n: usize,
    pub more: usize,
    pub failed: bool,
}

// A read's answer as one number: how many bytes it gave, or -1 where it failed.
fn answer(got: io::Result<usize>) -> isize
    requires { IfOk got (λ n. n < 2 ^ 63) }
    ensures { result ≡ answer got }
{
    match got {
        Ok(n) => n as isize,
        Err(_) => -1,
    }
}

// How many bytes a read gave.
fn given(got: isize) -> usize
    ensures { result ≡ given got }
{
    if 0 < got { got as usize } else { 0 }
}

// A block that held n bytes, after a read with this answer: -1 where it failed, else how many bytes it gave.
fn after(n: usize, got: isize) -> Filled
    requires { n + given got < 2 ^ 64 }
    ensures { result ≡ after n got }
{
    let more = given(got);
    Filled {
        n: n + more,
        more,
        failed: got < 0,
    }
}

// Reads once, behind the n bytes that the block holds.
fn read<R: io::Read>(from: &mut R, buf: &mut [u8], n: usize) -> Filled
    requires { n ≤ length buf.old }
    ensures read { Read n buf.old buf.new result }
    ensures bytes { Consumes (R.remaining from.old) (R.remaining from.new) (drop n (take result.n buf.new)) }
    ensures end { n < length buf.old → HasEnded result (R.remaining from.new) }
{
    let got = answer(from.read(&mut buf[n..]));
    after(n, got)
}

// Whether to read on: there is room, and the last read gave something. A read that gives less than asked is not the end.
fn reads_on(f: Filled, room: usize) -> bool
    ensures { result ≡ reads_on f room }
{
    (f.n < room) & (0 < f.more)
}

// Reads until the block is full, the input ends or a read fails.
pub fn fill<R: io::Read>(from: &mut R, buf: &mut [u8]) -> Filled
    ensures fills { Fills (length buf.new) result }
    ensures bytes { Consumes (R.remaining from.old) (R.remaining from.new) (take result.n buf.new) }
    ensures end { EndsShort (length buf.new) result (R.remaining from.new) }
{
    let mut f = Filled {
        n: 0,
        more: 1,
        failed: false,
    };
    while reads_on(f, buf.len()) {
        f = read(from, buf, f.n);
    }
    f
}

// How many bytes of a block are answered: all or, where a read failed, its whole records of so many bytes, since the input has not ended.
pub fn answered(f: Filled, size: usize) -> usize
    ensures { result ≡ answered f size }
{
    if f.failed & (0 < size) {
        f.n - f.n % size
    } else {
        f.n
    }
}
