// The desk's card program: records in, lines out, a block of 682 records at a time.
//
// A block is filled by as many reads as it takes, so a record may straddle reads and never straddles blocks: only the last block of the
// input is not full, and what `card::answer_block` finds past its whole records is the input's rest.
//
// What the system gives to a read or takes from a write no contract can say. Their answers are kept as they came, in `Filled` and `Block`, and
// every contract says what follows from them. Of a reader and a writer whose bytes are known, as those over memory, the contracts say besides
// which bytes are read and which are written.
#![tactic(auto)]

ghost use Rattle.std.specs.Prelude.{true, false, ◌≡◌, length, take};
ghost use Rattle.std.specs.Io.KnownBytes.{Consumes, Appends};
ghost use Rattle.card.specs.Block.{text};
ghost use Rattle.input.specs.Reads.{Fills, EndsShort, answered};
ghost use Rattle.forecast.specs.Run.{Turned, goes_on, end_of, Ran, IsAnswered};

use card::Answered;
use input::Filled;
use std::io;

// A block that was read and answered: how it was filled, what `answer_block` says of its lines, and whether they were written.
#[derive(Clone, Copy)]
struct Block {
    filled: Filled,
    answer: Answered,
    wrote: bool,
}

// How the run ended.
#[derive(Clone, Copy)]
enum End {
    InputEnded,
    ReadFailed,
    WriteFailed,
    NumbersEnded,
}

// Reads a block, answers it and writes the lines.
fn turn<R: io::Read, W: io::Write>(
    from: &mut R,
    to: &mut W,
    input: &mut [u8],
    out: &mut [u8],
    first: u64,
) -> Block
    ensures turned { Turned first input.new out.old out.new result }
    ensures fills { Fills (length input.new) result.filled }
    ensures bytes { Consumes (R.remaining from.old) (R.remaining from.new) (take result.filled.n input.new) }
    ensures end { EndsShort (length input.new) result.filled (R.remaining from.new) }
    ensures wrote { result.wrote ≡ true → (result.answer.next ≡ 0 → ⊥) → Appends (W.contents to.old) (W.contents to.new) (text first (take (answered result.filled 96) input.new)) }
{
    let filled = input::fill(from, input);
    let n = input::answered(filled, 96);
    let answer = card::answer_block(&input[..n], first, out);
    let bytes = answer.bytes;
    let wrote = to.write_all(&out[..bytes]).is_ok();
    Block {
        filled,
        answer,
        wrote,
    }
}

// Whether another block is read.
fn goes_on(t: Block, room: usize) -> bool
    ensures { result ≡ goes_on t room }
{
    t.wrote & (t.filled.n == room) & (t.answer.next != 0)
}

// Block after block, until one is the last.
fn run<R: io::Read, W: io::Write>(
    from: &mut R,
    to: &mut W,
    input: &mut [u8],
    out: &mut [u8],
) -> Block
    requires { length input.old ≡ 65472 }
    ensures last { goes_on result 65472 ≡ false }
    ensures ran { Ran (R.remaining from.old) (R.remaining from.new) (W.contents to.old) (W.contents to.new) result }
    ensures all { end_of result ≡ End.InputEnded → IsAnswered (R.remaining from.old) (W.contents to.old) (W.contents to.new) }
{
    let mut t = turn(from, to, input, out, 1);
    'turns: while goes_on(t, input.len()) {
        t = turn(from, to, input, out, t.answer.next);
    }
    t
}

fn end_of(t: Block) -> End
    ensures { result ≡ end_of t }
{
    if !t.wrote {
        return End::WriteFailed;
    }
    if t.filled.failed {
        return End::ReadFailed;
    }
    if t.answer.next == 0 {
        return End::NumbersEnded;
    }
    End::InputEnded
}

// Says on standard error what broke the run off.
fn say(to: &impl Eprint, e: End) {
    let _ = match e {
        End::InputEnded => Ok(()),
        End::ReadFailed => to.eprintln("forecast: a read failed"),
        End::WriteFailed => to.eprintln("forecast: a write failed"),
        End::NumbersEnded => to.eprintln("forecast: the numbers of records ended"),
    };
}

// There is room for 682 records of 96 bytes, and for 683 lines of at most 97: one for each record, and one for a rest.
fn main(rt: HostRuntime) {
    let mut stdin = rt.stdin();
    let mut stdout = rt.stdout();
    let mut input_space = [0u8; 65472];
    let mut output_space = [0u8; 66251];
    let input: &mut [u8] = &mut input_space;
    let out: &mut [u8] = &mut output_space;
    let t = run(&mut stdin, &mut stdout, input, out);
    say(&rt, end_of(t));
}
