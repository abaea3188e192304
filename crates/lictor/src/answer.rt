// Answers, put where C reads them: the number is returned, and a refusal leaves every place as it was, but for the place that a forecast
// or a run names.
ghost use Rattle.std.specs.Prelude.{◌≡◌, true, if◌then◌else◌};
ghost use Rattle.layout.specs.Chunk.{header_from};
ghost use Rattle.lictor.specs.Asked.{rows_over};
ghost use Rattle.lictor.specs.Answer.{fitting, Given, NumberGiven, MaskGiven, RecordedGiven, CountGiven, EmptinessGiven, DerivedGiven, CheckPut, ClearedGiven, ForecastPut, RanPut, SentPut, ScoredGiven, VerdictGiven, BinGiven};

use brake::{BrakeOut, Ran};
use chunk::Header;
use conformal::Scored;
use envelope::Derived;
use refusal::Refusal;
use tier0::Tier0Out;
use tier1::Cleared;
use window::Recorded;
use workspace::WallMasks;

// The number that is given: 255 where a code or a flag is none of its kind, or a count does not fit its field and the table does not refuse it.
pub(crate) fn fitting(fits: bool, number: u8) -> u64
    ensures { result ≡ fitting fits number }
{
    if fits { number as u64 } else { 255 }
}

// Puts what an accepted answer gives where C reads it, and returns the number.
fn put<T, U: Copy, F: Fn(T) -> U>(a: Result<T, Refusal>, place: &mut U, given: F) -> u64
    requires { F.IsAlwaysCallable given }
    ensures { Given (F.post given) a result place.old place.new }
{
    match a {
        Ok(x) => {
            *place = given(x);
            0
        }
        Err(r) => r.number as u64,
    }
}

pub(crate) fn put_number(a: Result<f64, Refusal>, value: &mut f64) -> u64
    ensures { NumberGiven a result value.old value.new }
{
    put(a, value, |x| x)
}

// Puts a chunk's numbers over the first ones of a buffer that has room for them.
fn put_rows(rows: &[f64], numbers: &mut [f64; 512])
    ensures { numbers.new ≡ rows_over numbers.old rows.now }
{
    if rows.len() <= 512 {
        fmath::put(rows, rows.len(), numbers);
    }
}

// Puts a chunk that came into the buffer of the one before; where none came that stays.
pub(crate) fn put_lent(
    came: bool,
    k: Header,
    rows: &[f64],
    numbers: &mut [f64; 512],
    header: &mut [u64; 6],
)
    ensures { (numbers.new ≡ (if came then rows_over numbers.old rows.now else numbers.old)) × (header.new ≡ (if came then header_from k true else header.old)) }
{
    if came {
        put_rows(rows, numbers);
        layout::chunks::put_header(k, true, header);
    }
}

pub(crate) fn put_mask(a: Result<u64, Refusal>, mask: &mut u64) -> u64
    ensures { MaskGiven a result mask.old mask.new }
{
    put(a, mask, |m| m)
}

pub(crate) fn put_recorded(a: Recorded, numbers: &mut [f64; 256], marks: &mut [u64; 2]) -> u64
    ensures { RecordedGiven a result numbers.old numbers.new marks.old marks.new }
{
    let refused = a.number as u64;
    if refused == 0 {
        layout::trails::put_trail(a.trail, numbers, marks);
    }
    refused
}

pub(crate) fn put_count(a: Result<usize, Refusal>, len: &mut u64) -> u64
    ensures { CountGiven a result len.old len.new }
{
    put(a, len, |n| n as u64)
}

pub(crate) fn put_emptiness(a: Result<bool, Refusal>, empty: &mut u64) -> u64
    ensures { EmptinessGiven a result empty.old empty.new }
{
    put(a, empty, |b| b as u64)
}

pub(crate) fn put_derived(number: u64, d: Derived, derived: &mut [f64; 29]) -> u64
    ensures { DerivedGiven number d result derived.old derived.new }
{
    if number == 0 {
        layout::config::put_derived(d, derived);
    }
    number
}

pub(crate) fn put_check(a: Result<Tier0Out, Refusal>, marks: &mut [u64; 4], speed: &mut f64) -> u64
    ensures { CheckPut a result marks.old marks.new speed.old speed.new }
{
    match a {
        Ok(found) => {
            let walls = found.walls;
            *marks = [
                found.trips as u64,
                found.clamped_dims as u64,
                walls.low as u64,
                walls.high as u64,
            ];
            *speed = found.peak_speed;
            0
        }
        Err(r) => r.number as u64,
    }
}

pub(crate) fn put_cleared(
    fits: bool,
    a: Cleared,
    rows: &mut [f64; 512],
    header: &mut [u64; 6],
    trail: &mut [f64; 256],
    samples: &mut [u64; 2],
    held: &mut [f64; 6],
    kept: &mut [u64; 2],
) -> u64
    ensures { ClearedGiven fits a result rows.old rows.new header.old header.new trail.old trail.new samples.old samples.new held.old held.new kept.old kept.new }
{
    let refusal = a.refusal;
    let number = fitting(fits, refusal.number);
    if number == 0 {
        let rt = a.rt;
        let features = rt.held;
        let data = rt.prev.data;
        *rows = data;
        layout::chunks::let_go(header);
        layout::trails::put_trail(rt.trail, trail, samples);
        layout::states::put_held(features, rt.have_prev, rt.held_valid, held, kept);
    }
    number
}

pub(crate) fn put_forecast(
    a: Result<BrakeOut, Refusal>,
    marks: &mut [u64; 2],
    distances: &mut [f64; 2],
    place: &mut u64,
) -> u64
    ensures { ForecastPut a result marks.old marks.new distances.old distances.new place.old place.new }
{
    match a {
        Ok(forecast) => {
            *marks = [forecast.count as u64, forecast.feasible as u64];
            *distances = [forecast.margin, forecast.stop_dist];
            0
        }
        Err(r) => {
            *place = r.place as u64;
            r.number as u64
        }
    }
}

pub(crate) fn put_ran(
    a: Result<Ran, Refusal>,
    count: &mut u64,
    margin: &mut f64,
    place: &mut u64,
) -> u64
    ensures { RanPut a result count.old count.new margin.old margin.new place.old place.new }
{
    match a {
        Ok(ran) => {
            *count = ran.count as u64;
            *margin = ran.margin;
            0
        }
        Err(r) => {
            *place = r.place as u64;
            r.number as u64
        }
    }
}

// A row is written by its entry; C is given the number, and the walls that moved the row.
pub(crate) fn put_sent(a: Result<WallMasks, Refusal>, marks: &mut [u64; 2]) -> u64
    ensures { SentPut a result marks.old marks.new }
{
    match a {
        Ok(walls) => {
            *marks = [walls.low as u64, walls.high as u64];
            0
        }
        Err(r) => r.number as u64,
    }
}

pub(crate) fn put_scored(fits: bool, a: Scored, scores: &mut [f64; 25], marks: &mut [u64; 2]) -> u64
    ensures { ScoredGiven fits a result scores.old scores.new marks.old marks.new }
{
    let number = fitting(fits, a.refusal.number);
    if number == 0 {
        layout::scores::put_scores(a.scores, scores, marks);
    }
    number
}

pub(crate) fn put_verdict(fits: bool, a: Result<bool, Refusal>, trips: &mut u64) -> u64
    ensures { VerdictGiven fits a result trips.old trips.new }
{
    if !fits {
        return 255;
    }
    put(a, trips, |b| b as u64)
}

pub(crate) fn put_bin(a: Result<usize, Refusal>, bin: &mut u64) -> u64
    ensures { BinGiven a result bin.old bin.new }
{
    put(a, bin, |b| b as u64)
}
