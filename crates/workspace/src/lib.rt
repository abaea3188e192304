// The workspace, a box or a disc: whether a point is outside, a point moved inside and by which walls, the setpoint at a position, and the slack that
// is left. Nothing else knows the shape or reads the walls.
#![tactic(auto)]

ghost use Rattle.std.specs.Prelude.{◌≡◌, true, ℕ, ◌≤◌, ◌<◌};
ghost use Rattle.std.specs.Float.{binary64};
ghost use Rattle.std.specs.Float.Ieee.{add, sub};
ghost use Rattle.checked.specs.Each.{at, some, over};
ghost use Rattle.checked.specs.Finite.{finite};
ghost use Rattle.checked.specs.Least.{least};
ghost use Rattle.checked.specs.Of.{reckoned_from, row_from, test_from};
ghost use Rattle.workspace.specs.Shape.{first_boxed, shape_ok, spans};
ghost use Rattle.workspace.specs.Rule.{beyond, outside, inside_at, inward, wall_masks, unmoved, setpoint, setpoint_masks, between, between_r, gap, slack, slack_r};
ghost use Rattle.workspace.specs.Of.{walls_in, walls_of};
ghost use Rattle.workspace.specs.Over.{FromEdge, LeastOver, nearer, no_slack};

use checked::{Reckoned, Row, Test};

// A box on every axis, or a disc over the first two coordinates, round the centre (x, y), with a box on the further axes.
#[derive(Clone, Copy)]
pub enum Shape {
    Box,
    Disc { x: f64, y: f64, radius: f64 },
}

// The shape, and the walls of the axes that have a box, moved inward by the margin.
#[derive(Clone, Copy)]
pub struct Workspace {
    pub shape: Shape,
    pub lo: [f64; 8],
    pub hi: [f64; 8],
}

// The walls of each axis that has a box.
#[derive(Clone, Copy)]
pub struct Bounds {
    pub lo: [f64; 8],
    pub hi: [f64; 8],
}

// Which walls moved a point, or some point of several: a bit for each axis whose low wall raised it, and for each whose high wall lowered it.
#[derive(Clone, Copy)]
pub struct WallMasks {
    pub low: u32,
    pub high: u32,
}

// ---- the shape

// The first axis that has a box.
pub fn first_boxed(shape: Shape) -> usize
    ensures { result ≡ first_boxed shape }
{
    match shape {
        Shape::Box => 0,
        Shape::Disc {
            x: _,
            y: _,
            radius: _,
        } => 2,
    }
}

// A disc's centre is finite, and its radius is above 0.
pub fn shape_ok(shape: Shape) -> bool
    ensures { result ≡ shape_ok shape }
{
    match shape {
        Shape::Box => true,
        Shape::Disc { x, y, radius } => {
            let a = fmath::finite(x);
            let b = fmath::finite(y);
            let c = fmath::above_zero(radius);
            a & b & c
        }
    }
}

// The action and the position have the coordinates that a disc lies over.
pub fn spans(shape: Shape, dim: usize, pos_dim: usize) -> bool
    ensures { result ≡ spans shape dim pos_dim }
{
    match shape {
        Shape::Box => true,
        Shape::Disc {
            x: _,
            y: _,
            radius: _,
        } => (2 <= dim) & (2 <= pos_dim),
    }
}

// ---- where a point lies

// One of the first n coordinates, from `first` on, strictly beyond a wall.
fn some_beyond(first: usize, b: Bounds, a: &[f64], n: usize) -> bool
    ensures { (s : Shape) → first ≡ first_boxed s → result ≡ some (beyond (walls_in s b) a.now) n }
{
    let m = fmath::fewer(n, fmath::fewer(a.len(), 8));
    let mut out = false;
    for j in fmath::fewer(first, m)..m {
        out = out | ((a[j] < b.lo[j]) | (b.hi[j] < a[j]));
    }
    out
}

// Strictly past the edge of a disc, or one of the first n coordinates that has a box strictly beyond a wall. Each shape has its own call, with a
// constant for where the loop starts: compiled, the walls are then read where they lie.
pub fn outside(shape: Shape, b: Bounds, a: &[f64], n: usize) -> Test
    ensures { result ≡ test_from (outside binary64 (walls_in shape b) a.now n) }
{
    match shape {
        Shape::Box => {
            let out = some_beyond(0, b, a, n);
            Test {
                holds: out,
                sound: true,
            }
        }
        Shape::Disc { x, y, radius } => {
            let centre = [x, y];
            let far = fmath::distance(a, &centre, 2);
            let sound = fmath::finite(far);
            let out = some_beyond(2, b, a, n);
            Test {
                holds: (radius < far) | out,
                sound,
            }
        }
    }
}

// ---- a point moved inside

// The point with its first n coordinates, from `first` on, moved inside their walls.
fn walled(first: usize, b: Bounds, a: [f64; 8], n: usize) -> [f64; 8]
    ensures { (s : Shape) → first ≡ first_boxed s → result ≡ over (inside_at (walls_in s b) a) a n }
{
    let m = fmath::fewer(n, 8);
    let mut r = a;
    for j in fmath::fewer(first, m)..m {
        r[j] = fmath::clamp(r[j], b.lo[j], b.hi[j]).value;
    }
    r
}

// The point, past the edge of a disc pulled towards its centre, with those of its first n coordinates that have a box moved inside their walls.
pub fn inward(shape: Shape, b: Bounds, a: [f64; 8], n: usize) -> Row
    ensures { result ≡ row_from (inward binary64 (walls_in shape b) a n) }
{
    match shape {
        Shape::Box => {
            let at = walled(0, b, a, n);
            Row { at, sound: true }
        }
        Shape::Disc { x, y, radius } => {
            let centre = [x, y];
            let on = pull::pulled(radius, &centre, 2, a);
            let near = on.at;
            let at = walled(2, b, near, n);
            Row {
                at,
                sound: on.sound,
            }
        }
    }
}

// No wall moved anything.
pub fn unmoved() -> WallMasks
    ensures { result ≡ unmoved }
{
    WallMasks { low: 0, high: 0 }
}

// The walls that move a point on those of its first n coordinates that have a box.
pub fn wall_masks(shape: Shape, b: Bounds, a: &[f64], n: usize) -> WallMasks
    ensures { result ≡ wall_masks (walls_in shape b) a.now n }
{
    let first = first_boxed(shape);
    let m = fmath::fewer(n, fmath::fewer(a.len(), 8));
    let mut low = 0u32;
    let mut high = 0u32;
    let mut power = 1u32;
    for j in 0..m {
        let c = fmath::clamp(a[j], b.lo[j], b.hi[j]);
        low = low + bits::weight((first <= j) & (c.side < 0), power);
        high = high + bits::weight((first <= j) & (0 < c.side), power);
        power = power * 2;
    }
    WallMasks { low, high }
}

// The position, 0.0 where it has no such coordinate, moved inside on its first n coordinates.
pub fn setpoint(w: Workspace, pos: &[f64], n: usize) -> Row
    ensures { result ≡ row_from (setpoint binary64 (walls_of w) pos.now n) }
{
    let shape = w.shape;
    let lo = w.lo;
    let hi = w.hi;
    let p = fmath::padded(pos, 8);
    inward(shape, Bounds { lo, hi }, p, n)
}

// The walls that move the setpoint on its first n coordinates.
pub fn setpoint_masks(w: Workspace, pos: &[f64], n: usize) -> WallMasks
    ensures { result ≡ setpoint_masks (walls_of w) pos.now n }
{
    let shape = w.shape;
    let lo = w.lo;
    let hi = w.hi;
    let point = fmath::padded(pos, 8);
    wall_masks(shape, Bounds { lo, hi }, &point, n)
}

// ---- the slack

// The lesser of the distances to the walls of one axis, and whether both are finite.
fn nearer(low: f64, high: f64) -> Reckoned
    ensures { result ≡ nearer low high }
{
    let fine = fmath::finite(low) & fmath::finite(high);
    Reckoned {
        value: fmath::min(low, high),
        sound: fine,
    }
}

fn gap(lo: f64, hi: f64, p: f64) -> Reckoned
    ensures { result ≡ reckoned_from (between binary64 lo hi p) }
{
    nearer(p - lo, hi - p)
}

// The slack over no axis: at a disc what `left` makes of the distance to its edge, else infinity.
fn edge_slack<F: Fn(f64) -> f64>(w: Workspace, p: [f64; 8], left: F) -> Reckoned
    requires { F.IsAlwaysCallable left }
    ensures { FromEdge (F.post left) w.shape p result }
{
    let inf = 1.0 / 0.0;
    let shape = w.shape;
    match shape {
        Shape::Box => Reckoned {
            value: inf,
            sound: true,
        },
        Shape::Disc { x, y, radius } => {
            let centre = [x, y];
            let rest = left(radius - fmath::distance(&p, &centre, 2));
            let sound = fmath::finite(rest);
            Reckoned {
                value: fmath::min(inf, rest),
                sound,
            }
        }
    }
}

// The least of the edge's slack and of what `gap` gives for each of the first n axes that has a box. Past eight axes there is none.
fn slack_over<F: Fn(usize) -> Reckoned>(shape: Shape, edge: Reckoned, n: usize, gap: F) -> Reckoned
    requires { (j : ℕ) → j < 8 → F.pre gap j }
    ensures few { 8 < n → result ≡ no_slack }
    ensures all { n ≤ 8 → LeastOver shape edge (F.post gap) n result }
{
    if 8 < n {
        return Reckoned {
            value: 0.0 / 0.0,
            sound: false,
        };
    }
    let mut least = edge.value;
    let mut sound = edge.sound;
    for j in first_boxed(shape)..n {
        let g = gap(j);
        least = fmath::min(least, g.value);
        sound = sound & g.sound;
    }
    Reckoned {
        value: least,
        sound,
    }
}

// The slack of a point over its first n coordinates. It is taken at each substep, where a call would copy the walls.
#[inline(always)]
pub fn slack(w: Workspace, p: [f64; 8], n: usize) -> Reckoned
    ensures { result ≡ reckoned_from (slack binary64 (walls_of w) p n) }
{
    let edge = edge_slack(w, p, |left| left);
    slack_over(w.shape, edge, n, |j| gap(w.lo[j], w.hi[j], p[j]))
}

// The lesser distance to the walls of one axis, and the sum of both.
#[derive(Clone, Copy)]
struct Sides {
    near: f64,
    sum: f64,
}

// The lesser distances on all eight axes, and a sum that is finite only where each distance is.
#[derive(Clone, Copy)]
struct Around {
    near: [f64; 8],
    sum: f64,
}

fn beside(lo: f64, hi: f64, p: f64) -> Sides
    ensures { (result.near ≡ (between binary64 lo hi p).value) × (result.sum ≡ add binary64 (sub binary64 p lo) (sub binary64 hi p)) }
{
    let below = p - lo;
    let above = hi - p;
    Sides {
        near: fmath::min(below, above),
        sum: below + above,
    }
}

// Two axes a turn, each with its own sum: compiled, that is one operation for both.
fn around_all(w: Workspace, p: [f64; 8]) -> Around
    ensures { ((j : ℕ) → j < 8 → at result.near j ≡ (gap binary64 (walls_of w) p j).value) × (finite result.sum ≡ true → (j : ℕ) → j < 8 → (gap binary64 (walls_of w) p j).sound ≡ true) }
{
    let mut near = [0.0; 8];
    let mut even = 0.0;
    let mut odd = 0.0;
    for i in 0..4 {
        let j = 2 * i;
        let k = j + 1;
        let one = beside(w.lo[j], w.hi[j], p[j]);
        let other = beside(w.lo[k], w.hi[k], p[k]);
        near[j] = one.near;
        near[k] = other.near;
        even = even + one.sum;
        odd = odd + other.sum;
    }
    Around {
        near,
        sum: even + odd,
    }
}

fn least_of(near: [f64; 8], n: usize) -> f64
    requires { n ≤ 8 }
    ensures { result ≡ least (at near) n }
{
    let mut least = 1.0 / 0.0;
    for j in 0..n {
        least = fmath::min(least, near[j]);
    }
    least
}

// The same slack, at a box quicker: all eight axes are measured, and one test of a sum tells that each distance is finite. Where it does not
// tell, and with a disc, they are judged one by one.
pub fn slack_abreast(w: Workspace, p: [f64; 8], n: usize) -> Reckoned
    ensures { result ≡ reckoned_from (slack binary64 (walls_of w) p n) }
{
    let shape = w.shape;
    if 0 < first_boxed(shape) {
        return slack(w, p, n);
    }
    let r = around_all(w, p);
    if (8 < n) | !fmath::finite(r.sum) {
        return slack(w, p, n);
    }
    let near = r.near;
    let least = least_of(near, n);
    Reckoned {
        value: least,
        sound: true,
    }
}

fn gap_r(r: f64, lo: f64, hi: f64, p: f64) -> Reckoned
    ensures { result ≡ reckoned_from (between_r binary64 r lo hi p) }
{
    nearer(p - r - lo, hi - p - r)
}

// The slack with a stopping radius taken off.
pub fn slack_r(w: Workspace, r: f64, p: [f64; 8], n: usize) -> Reckoned
    ensures { result ≡ reckoned_from (slack_r binary64 (walls_of w) r p n) }
{
    let edge = edge_slack(w, p, |left| left - r);
    slack_over(w.shape, edge, n, |j| gap_r(r, w.lo[j], w.hi[j], p[j]))
}
