// A chunk that is held: its 512 numbers; 6 counts, seq, t_emit, horizon, dim, exec_steps and filled.
ghost use Rattle.std.specs.Prelude.{◌≡◌};
ghost use Rattle.layout.specs.Chunk.{header_fits, chunk_of, header_from, header_flat, unheld};

use crate::places::{to_u16, to_u32};
use chunk::{ChunkBuf, Header};

// The flag is one, and of a chunk that is held the sequence number and the time fit their fields.
pub fn header_fits(h: &[u64; 6]) -> bool
    ensures { result ≡ header_fits h.now }
{
    (h[5] <= 1) & ((h[5] == 0) | ((h[0] <= 4294967295) & (h[1] <= 4294967295)))
}

// The buffer that the arrays stand for.
pub fn chunk_of(l: &[f64; 512], h: &[u64; 6]) -> ChunkBuf
    ensures { result ≡ chunk_of l.now h.now }
{
    let seq = to_u32(h[0]);
    let t_emit = to_u32(h[1]);
    let horizon = to_u16(h[2]);
    let dim = to_u16(h[3]);
    let exec_steps = to_u16(h[4]);
    ChunkBuf {
        data: *l,
        header: Header {
            seq,
            t_emit,
            horizon,
            dim,
            exec_steps,
        },
        filled: h[5] == 1,
    }
}

// Lays what is said of a chunk besides its rows out in the array.
pub fn put_header(header: Header, filled: bool, h: &mut [u64; 6])
    ensures { h.new ≡ header_from header filled }
{
    *h = [
        header.seq as u64,
        header.t_emit as u64,
        header.horizon as u64,
        header.dim as u64,
        header.exec_steps as u64,
        filled as u64,
    ];
}

// Lays the buffer out in the arrays.
pub fn put_chunk(b: ChunkBuf, l: &mut [f64; 512], h: &mut [u64; 6])
    ensures { (l.new ≡ b.«data») × (h.new ≡ header_flat b) }
{
    let data = b.data;
    *l = data;
    put_header(b.header, b.filled, h);
}

// Lets go of the chunk; what is said of it stays.
pub fn let_go(h: &mut [u64; 6])
    ensures { h.new ≡ unheld h.old }
{
    *h = [h[0], h[1], h[2], h[3], h[4], 0];
}
