// Which checks are armed, and the rows as they came.
ghost use Rattle.std.specs.Prelude.{◌≡◌, ◌+◌, ◌*◌, ◌≤◌, ◌<◌, min, length};
ghost use Rattle.tier0.specs.Rule.{arms};
ghost use Rattle.tier0.specs.Chunk.{raw_row, start_row, row_before};

use crate::Checks;

// Whether the check of a trip bit is armed.
pub(crate) fn armed(s: Checks, w: u32) -> bool
    requires { 0 < w }
    ensures { result ≡ arms s w }
{
    s.armed / w % 2 == 1
}

// How many coordinates the action and the position share.
pub(crate) fn box_dims(s: Checks) -> usize
    ensures { result ≡ min s.dim s.pos_dim }
{
    fmath::fewer(s.dim, s.pos_dim)
}

// Row i as it came, with zeros up to eight numbers.
pub(crate) fn raw_row(rows: &[f64], n: usize, i: usize) -> [f64; 8]
    requires { (n ≤ 8) × (i < 64) × (i * n + n ≤ length rows.now) }
    ensures { result ≡ raw_row rows.now n i }
{
    let from = i * n;
    fmath::padded(&rows[from..], n)
}

// What stands before row 0: the position on the shared coordinates, row 0 itself on the others.
pub(crate) fn start_row(s: Checks, pos: &[f64], rows: &[f64]) -> [f64; 8]
    requires { (s.dim ≤ 8) × (s.dim ≤ length rows.now) × (s.pos_dim ≤ length pos.now) }
    ensures { result ≡ start_row s pos.now rows.now }
{
    let n = box_dims(s);
    let mut r = raw_row(rows, s.dim, 0);
    fmath::put(pos, n, &mut r);
    r
}

// The row before row i; q stands before row 0.
pub(crate) fn row_before(q: [f64; 8], rows: &[f64], n: usize, i: usize) -> [f64; 8]
    requires { (n ≤ 8) × (i < 64) × (i * n + n ≤ length rows.now) }
    ensures { result ≡ row_before q rows.now n i }
{
    if i == 0 {
        return q;
    }
    raw_row(rows, n, i - 1)
}
