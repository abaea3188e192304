// Which walls moved the rows in the first move of their projection, each row as it came. A row that is not out of the workspace was moved by none,
// so where the check has found that none is, no row is looked at again.
ghost use Rattle.std.specs.Prelude.{◌≡◌, ◌*◌, ◌≤◌, length};
ghost use Rattle.std.specs.Float.{binary64};
ghost use Rattle.workspace.specs.Of.{walls_in};
ghost use Rattle.workspace.specs.Rule.{any_masks};
ghost use Rattle.tier0.specs.Rule.{box_dims, out_of_workspace, moves_inside, row_masks};
ghost use Rattle.tier0.specs.Chunk.{raw_row, some_out_of_workspace, rows_masks};

use crate::Checks;
use crate::measure::{armed, box_dims, raw_row};
use envelope::{ClampMode, TripMask};
use workspace::WallMasks;

// Whether rows are moved inside the workspace at all.
fn moves_inside(s: Checks) -> bool
    ensures { result ≡ moves_inside s s.clamp }
{
    let mode = s.clamp;
    match mode {
        ClampMode::Off => false,
        ClampMode::Project => armed(s, TripMask::WORKSPACE),
    }
}

// The walls that moved one row.
pub(crate) fn row_masks(s: Checks, out: bool, a: &[f64]) -> WallMasks
    requires { out ≡ (out_of_workspace binary64 s a.now).value }
    ensures { result ≡ row_masks s a.now }
{
    if !(out & moves_inside(s)) {
        return workspace::unmoved();
    }
    let shape = s.shape;
    let walls = s.walls;
    let n = box_dims(s);
    workspace::wall_masks(shape, walls, a, n)
}

// The masks of each row, joined.
fn any_masks(s: Checks, rows: &[f64], h: usize) -> WallMasks
    requires { (s.dim ≤ 8) × (h ≤ 64) × (h * s.dim ≤ length rows.now) }
    ensures { result ≡ any_masks (walls_in s.shape s.walls) (raw_row rows.now s.dim) h (box_dims s) }
{
    let shape = s.shape;
    let walls = s.walls;
    let n = box_dims(s);
    let mut low = 0u32;
    let mut high = 0u32;
    for i in 0..h {
        let a = raw_row(rows, s.dim, i);
        let m = workspace::wall_masks(shape, walls, &a, n);
        low = low | m.low;
        high = high | m.high;
    }
    WallMasks { low, high }
}

// The walls that moved any row.
pub(crate) fn rows_masks(s: Checks, out: bool, rows: &[f64], h: usize) -> WallMasks
    requires { (s.dim ≤ 8) × (h ≤ 64) × (h * s.dim ≤ length rows.now) × (out ≡ (some_out_of_workspace binary64 s rows.now h).value) }
    ensures { result ≡ rows_masks s rows.now h }
{
    if !(out & moves_inside(s)) {
        return workspace::unmoved();
    }
    any_masks(s, rows, h)
}
