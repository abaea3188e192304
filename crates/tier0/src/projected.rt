// Projection: a row moved inside the workspace, to its leash and into reach; the rows of a chunk, each from the projected one before.
ghost use Rattle.std.specs.Prelude.{◌≡◌, true, false, ◌+◌, ◌*◌, ◌≤◌, length};
ghost use Rattle.std.specs.Float.{binary64};
ghost use Rattle.tier0.specs.Rule.{out_of_workspace, leash, moved_inside, leashed, reached, pulls, moves, moved_dims, project, projection};
ghost use Rattle.tier0.specs.Chunk.{some_out_of_workspace, put_row, run_rows, projected_rows};
ghost use Rattle.tier0.specs.Of.{slow_of, clamped_from, run_from, moved_rows_from};
ghost use Rattle.checked.specs.Checked.{pure};
ghost use Rattle.checked.specs.Of.{row_from};

use crate::measure::{armed, box_dims, raw_row};
use crate::{Checks, Clamped, MovedRows, SlowZone};
use checked::Row;
use envelope::{ClampMode, TripMask};

// The row moved inside the workspace, where WORKSPACE is armed. Here and below, `inside` says that the check has found the row inside it, or each of the
// rows: this move would leave it as it is, and is passed over.
fn moved_inside(s: Checks, inside: bool, a: [f64; 8]) -> Row
    requires { inside ≡ true → out_of_workspace binary64 s a ≡ pure false }
    ensures { result ≡ row_from (moved_inside binary64 s a) }
{
    if inside | !armed(s, TripMask::WORKSPACE) {
        return Row { at: a, sound: true };
    }
    let shape = s.shape;
    let walls = s.walls;
    let n = box_dims(s);
    workspace::inward(shape, walls, a, n)
}

// The least armed leash.
fn leash(speed: bool, step_max: f64, z: SlowZone) -> f64
    ensures { result ≡ leash speed step_max (slow_of z) }
{
    if !speed {
        return z.step;
    }
    if z.inside {
        fmath::min(step_max, z.step)
    } else {
        step_max
    }
}

// The row leashed to the one before it, where a leash is armed.
fn leashed(s: Checks, z: SlowZone, prev: &[f64], a: [f64; 8]) -> Row
    ensures { result ≡ row_from (leashed binary64 s (slow_of z) prev.now a) }
{
    let speed = armed(s, TripMask::SPEED);
    if !(speed | z.inside) {
        return Row { at: a, sound: true };
    }
    let most = leash(speed, s.step_max, z);
    pull::pulled(most, prev, s.dim, a)
}

// The row pulled towards the position, where REACH is armed.
fn reached(s: Checks, pos: &[f64], a: [f64; 8]) -> Row
    ensures { result ≡ row_from (reached binary64 s pos.now a) }
{
    if !armed(s, TripMask::REACH) {
        return Row { at: a, sound: true };
    }
    let n = box_dims(s);
    pull::pulled(s.reach_max, pos, n, a)
}

// A row after its pulls: to its leash, and the first row into reach.
fn pulls(s: Checks, z: SlowZone, pos: &[f64], first: bool, prev: &[f64], a: [f64; 8]) -> Row
    ensures { result ≡ row_from (pulls binary64 s (slow_of z) pos.now first prev.now a) }
{
    let l = leashed(s, z, prev, a);
    if first {
        let near = l.at;
        let r = reached(s, pos, near);
        let at = r.at;
        return Row {
            at,
            sound: l.sound & r.sound,
        };
    }
    l
}

// A bit for each coordinate that differs, as numbers.
fn moved_dims(a: &[f64; 8], b: &[f64; 8], n: usize) -> u32
    requires { n ≤ 8 }
    ensures { result ≡ moved_dims a.now b.now n }
{
    let mut m = 0u32;
    let mut w = 1u32;
    for i in 0..n {
        m = m + bits::weight(a[i] != b[i], w);
        w = w * 2;
    }
    m
}

// The action after the three moves, and the coordinates that they moved.
fn project(s: Checks, z: SlowZone, pos: &[f64], inside: bool, prev: &[f64], a: [f64; 8]) -> Clamped
    requires { (s.dim ≤ 8) × (inside ≡ true → out_of_workspace binary64 s a ≡ pure false) }
    ensures { result ≡ clamped_from (project binary64 s (slow_of z) pos.now prev.now a) }
{
    let b = moved_inside(s, inside, a);
    let inner = b.at;
    let r = pulls(s, z, pos, true, prev, inner);
    let at = r.at;
    let mask = moved_dims(&a, &at, s.dim);
    Clamped {
        at,
        mask,
        sound: b.sound & r.sound,
    }
}

// The projection, or the action as it came under ClampMode Off.
pub(crate) fn projection(
    s: Checks,
    z: SlowZone,
    pos: &[f64],
    inside: bool,
    prev: &[f64],
    a: [f64; 8],
) -> Clamped
    requires { (s.dim ≤ 8) × (inside ≡ true → out_of_workspace binary64 s a ≡ pure false) }
    ensures { result ≡ clamped_from (projection binary64 s s.clamp (slow_of z) pos.now prev.now a) }
{
    let mode = s.clamp;
    match mode {
        ClampMode::Off => Clamped {
            at: a,
            mask: 0,
            sound: true,
        },
        ClampMode::Project => project(s, z, pos, inside, prev, a),
    }
}

// The first n numbers of a row, written over a slice from k on.
fn put_row(r: [f64; 8], k: usize, n: usize, out: &mut [f64])
    requires { (n ≤ 8) × (k + n ≤ length out.old) }
    ensures { out.new ≡ put_row r out.old k n }
{
    for i in 0..n {
        out[k + i] = r[i];
    }
}

// A row after its moves, from the projected one before it.
fn next_row(
    s: Checks,
    z: SlowZone,
    pos: &[f64],
    inside: bool,
    first: bool,
    q: [f64; 8],
    a: [f64; 8],
) -> Row
    requires { inside ≡ true → out_of_workspace binary64 s a ≡ pure false }
    ensures { result ≡ row_from (moves binary64 s (slow_of z) pos.now first q a) }
{
    let b = moved_inside(s, inside, a);
    let inner = b.at;
    let r = pulls(s, z, pos, first, &q, inner);
    let at = r.at;
    let sound = b.sound & r.sound;
    Row { at, sound }
}

// The projected rows, each from the projected one before it; q0 stands before row 0.
fn run_rows(
    s: Checks,
    z: SlowZone,
    pos: &[f64],
    inside: bool,
    rows: &[f64],
    q0: [f64; 8],
    h: usize,
    out: &mut [f64],
) -> MovedRows
    requires { (s.dim ≤ 8) × (h ≤ 64) × (h * s.dim ≤ length rows.now) × (h * s.dim ≤ length out.old) × (inside ≡ true → some_out_of_workspace binary64 s rows.now h ≡ pure false) }
    ensures { (result ≡ run_from (run_rows binary64 s (slow_of z) pos.now rows.now q0 out.old h)) × (out.new ≡ (run_rows binary64 s (slow_of z) pos.now rows.now q0 out.old h).value.out) }
{
    let n = s.dim;
    let mut q = q0;
    let mut mask = 0u32;
    let mut sound = true;
    for i in 0..h {
        let a = raw_row(rows, n, i);
        let r = next_row(s, z, pos, inside, i == 0, q, a);
        let at = r.at;
        mask = mask | moved_dims(&a, &at, n);
        put_row(at, i * n, n, out);
        q = at;
        sound = sound & r.sound;
    }
    MovedRows { mask, sound }
}

// The rows projected, or as they came under ClampMode Off, written over out.
pub(crate) fn projected_rows(
    s: Checks,
    z: SlowZone,
    pos: &[f64],
    inside: bool,
    rows: &[f64],
    q: [f64; 8],
    h: usize,
    out: &mut [f64],
) -> MovedRows
    requires { (s.dim ≤ 8) × (h ≤ 64) × (h * s.dim ≤ length rows.now) × (h * s.dim ≤ length out.old) × (inside ≡ true → some_out_of_workspace binary64 s rows.now h ≡ pure false) }
    ensures { (result ≡ moved_rows_from (projected_rows binary64 s s.clamp (slow_of z) pos.now rows.now q out.old h)) × (out.new ≡ (projected_rows binary64 s s.clamp (slow_of z) pos.now rows.now q out.old h).value.rows) }
{
    let mode = s.clamp;
    match mode {
        ClampMode::Off => {
            fmath::put(rows, h * s.dim, out);
            MovedRows {
                mask: 0,
                sound: true,
            }
        }
        ClampMode::Project => run_rows(s, z, pos, inside, rows, q, h, out),
    }
}
