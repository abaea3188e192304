// The action chunk: storage that is held whole (`ChunkBuf`), the view of lent rows (`ChunkView`), and one row of either.
#![tactic(auto)]

ghost use Rattle.std.specs.Prelude.{◌≡◌, ◌<◌};
ghost use Rattle.refusal.specs.Order.{judged_by, refusal};
ghost use Rattle.chunk.specs.Rule.{row_start, row_of, row_set, held_rows};
ghost use Rattle.chunk.specs.Refusals.{chunk_reasons, lent_reasons};
ghost use Rattle.chunk.specs.Of.{new_chunk, fill_of, copy_of, cleared_of, held_refusal_of, clear_of, holding_of, part_of, IsRow, view_of, held_header, Shows, ShowsHeld};

use refusal::Refusal;

// What is said of a chunk besides its rows.
#[derive(Clone, Copy)]
pub struct Header {
    pub seq: u32,
    pub t_emit: u32,
    pub horizon: u16,
    pub dim: u16,
    pub exec_steps: u16,
}

// The numbers of a chunk in row-major order: row i starts at i x dim. `filled` stands beside them, since `clear` promises that all else is kept, and C
// lays both out.
#[derive(Clone, Copy)]
pub struct ChunkBuf {
    pub data: [f64; 512],
    pub header: Header,
    pub filled: bool,
}

// The refusal's number, or 0, and the buffer, which is as it was where it is refused.
#[derive(Clone, Copy)]
pub struct Filled {
    pub number: u8,
    pub buf: ChunkBuf,
}

// A chunk whose rows stay the caller's.
#[derive(Clone, Copy)]
pub struct ChunkView<'a> {
    pub header: Header,
    pub data: &'a [f64],
}

// The places from start on, before end.
#[derive(Clone, Copy)]
struct Part {
    start: usize,
    end: usize,
}

// Why a chunk's sizes are refused, in the order of `fill`, where its rows are len numbers.
pub fn chunk_refusal(header: Header, len: usize) -> Result<(), Refusal>
    ensures { result ≡ judged_by (refusal (chunk_reasons header len)) }
{
    let horizon = header.horizon;
    let dim = header.dim;
    Refusal::when(Refusal::EMPTY, (horizon == 0) | (dim == 0))?;
    Refusal::when(Refusal::TOO_LONG, ChunkBuf::MAX_H < horizon)?;
    Refusal::when(Refusal::TOO_WIDE, ChunkBuf::MAX_D < dim)?;
    let exceeds = horizon < header.exec_steps;
    Refusal::when(Refusal::EXEC_EXCEEDS_HORIZON, exceeds)?;
    let size = (horizon as usize) * (dim as usize);
    Refusal::when(Refusal::LEN_MISMATCH, len != size)
}

// Why a lent chunk is refused: its sizes, then its rows' numbers, which have to be finite.
pub fn lent_refusal(rows: &[f64], header: Header) -> Result<(), Refusal>
    ensures { result ≡ judged_by (refusal (lent_reasons rows.now header)) }
{
    let sizes = chunk_refusal(header, rows.len());
    let fit = fmath::all_finite(rows, rows.len());
    Refusal::or_later(sizes, Refusal::when(Refusal::NOT_FINITE, !fit))
}

impl ChunkBuf {
    pub const MAX_H: u16 = 64;

    pub const MAX_D: u16 = 8;

    // No chunk yet.
    pub fn new() -> ChunkBuf
        ensures { result ≡ new_chunk }
    {
        ChunkBuf {
            data: [0.0; 512],
            header: Header {
                seq: 0,
                t_emit: 0,
                horizon: 0,
                dim: 0,
                exec_steps: 0,
            },
            filled: false,
        }
    }

    // The lent chunk, copied in; the numbers past its own stay. A refusal leaves the buffer as it was.
    pub fn fill(self, header: Header, src: &[f64]) -> Filled
        ensures { result ≡ fill_of self header src.now }
    {
        let number = Refusal::number_of(lent_refusal(src, header));
        if number != 0 {
            return Filled { number, buf: self };
        }
        let mut data = self.data;
        fmath::put(src, src.len(), &mut data);
        Filled {
            number: 0,
            buf: ChunkBuf {
                data,
                header,
                filled: true,
            },
        }
    }

    // `fill`, from a view.
    pub fn copy_from<'a>(self, v: ChunkView<'a>) -> Filled
        ensures { result ≡ copy_of self v.entry }
    {
        self.fill(v.header, v.data)
    }

    // The buffer with no chunk held, all else kept, for a caller that has judged it.
    pub fn emptied(mut self) -> ChunkBuf
        ensures { result ≡ cleared_of self }
    {
        self.filled = false;
        self
    }

    // Lets go of the held chunk, all else kept. One that is refused stays.
    pub fn clear(self) -> Filled
        ensures { result ≡ clear_of self }
    {
        let number = Refusal::number_of(self.held_refusal());
        if number != 0 {
            return Filled { number, buf: self };
        }
        let buf = self.emptied();
        Filled { number: 0, buf }
    }

    // Whether a chunk is held; one that is refused is not answered about.
    pub fn is_filled(self) -> Result<bool, Refusal>
        ensures { result ≡ holding_of self }
    {
        self.held_refusal()?;
        Ok(self.filled)
    }

    // Why the held chunk is refused: never where none is held, else as a lent one.
    pub fn held_refusal(self) -> Result<(), Refusal>
        ensures { result ≡ judged_by (held_refusal_of self) }
    {
        if !self.filled {
            return Ok(());
        }
        let data = self.data;
        let header = self.header;
        let n = (header.horizon as usize) * (header.dim as usize);
        let sizes = chunk_refusal(header, n);
        let fit = fmath::all_finite(&data, n);
        Refusal::or_later(sizes, Refusal::when(Refusal::NOT_FINITE, !fit))
    }

    // The view of the held chunk, as `view_held` gives it.
    pub fn view<'a>(&'a self) -> ChunkView<'a>
        ensures { ShowsHeld result self.now }
    {
        view_held(self.header, self.filled, &self.data)
    }
}

// Where row i starts, in a chunk that has rows: the last row at or past the horizon.
fn row_start(horizon: u16, dim: u16, i: usize) -> usize
    requires { 0 < horizon }
    ensures { result ≡ row_start horizon dim i }
{
    fmath::fewer(i, (horizon as usize) - 1) * (dim as usize)
}

// Where row i lies among len numbers, the last row at or past the horizon; an empty part where there are no rows or it runs past the numbers.
fn row_part(len: usize, horizon: u16, dim: u16, i: usize) -> Part
    ensures { result ≡ part_of len horizon dim i }
{
    if horizon == 0 {
        return Part { start: 0, end: 0 };
    }
    let start = row_start(horizon, dim, i);
    let end = start + (dim as usize);
    if end <= len {
        return Part { start, end };
    }
    Part { start: 0, end: 0 }
}

// Row i as a part of the rows, where `row_part` says.
fn row_of(rows: &[f64], horizon: u16, dim: u16, i: usize) -> &[f64]
    ensures { result.now ≡ row_of rows.now horizon dim i }
{
    let part = row_part(rows.len(), horizon, dim, i);
    let start = part.start;
    let end = part.end;
    &rows[start..end]
}

// The same part, in its place among the numbers, to be written.
pub fn row_mut(data: &mut [f64], horizon: u16, dim: u16, i: usize) -> &mut [f64]
    ensures { IsRow result «data».entry horizon dim i }
{
    let part = row_part(data.len(), horizon, dim, i);
    let start = part.start;
    let end = part.end;
    &mut data[start..end]
}

// Writes the numbers of row over that part, as many as both have; the rest stays. `copy_from_slice` would need `memmove` of whoever links the library for C.
pub fn set_row(data: &mut [f64], horizon: u16, dim: u16, i: usize, row: &[f64])
    ensures { «data».new ≡ row_set «data».old horizon dim i row.now }
{
    if horizon == 0 {
        return;
    }
    let d = dim as usize;
    let start = row_start(horizon, dim, i);
    if data.len() < start + d {
        return;
    }
    let n = fmath::fewer(d, row.len());
    for c in 0..n {
        data[start + c] = row[c];
    }
}

// The rows that a buffer holds: the first horizon x dim of its numbers; none where no chunk is held or they are not there.
pub fn held_rows(data: &[f64], horizon: u16, dim: u16, filled: bool) -> &[f64]
    ensures { result.now ≡ held_rows «data».now horizon dim filled }
{
    let n = (horizon as usize) * (dim as usize);
    if filled & (n <= data.len()) {
        &data[..n]
    } else {
        &data[..0]
    }
}

// What is said of a held chunk: sizes 0 where none is held.
fn held_header(mut header: Header, filled: bool) -> Header
    ensures { result ≡ held_header header filled }
{
    if filled {
        return header;
    }
    header.horizon = 0;
    header.dim = 0;
    header.exec_steps = 0;
    header
}

// The view of lent rows: the caller's numbers, none copied.
pub fn view<'a>(header: Header, data: &'a [f64]) -> ChunkView<'a>
    ensures { result ≡ view_of header «data».entry }
{
    ChunkView { header, data }
}

impl<'a> ChunkView<'a> {
    // Row i of the view, as `row_of` gives it.
    pub fn action(self, i: usize) -> &'a [f64]
        ensures { result.now ≡ row_of self.entry.«data».now self.entry.header.horizon self.entry.header.dim i }
    {
        row_of(self.data, self.header.horizon, self.header.dim, i)
    }
}

// Row i of lent rows, by way of their view.
pub fn action(data: &[f64], horizon: u16, dim: u16, i: usize) -> &[f64]
    ensures { result.now ≡ row_of «data».now horizon dim i }
{
    let header = Header {
        seq: 0,
        t_emit: 0,
        horizon,
        dim,
        exec_steps: 0,
    };
    view(header, data).action(i)
}

// The view of what a buffer holds: sizes 0 and no rows where no chunk is held.
pub fn view_held<'a>(header: Header, filled: bool, data: &'a [f64]) -> ChunkView<'a>
    ensures { Shows result header filled «data».now }
{
    let held = held_header(header, filled);
    let rows = held_rows(data, header.horizon, header.dim, filled);
    view(held, rows)
}
