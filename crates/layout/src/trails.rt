// A trail: its 256 numbers; 2 counts, head and len, which the table refuses long before they fill their fields.
ghost use Rattle.std.specs.Prelude.{◌≡◌};
ghost use Rattle.layout.specs.Trail.{trail_of, trail_marks};

use crate::places::to_u8;
use window::Trail;

// The trail that the arrays stand for.
pub fn trail_of(l: &[f64; 256], c: &[u64; 2]) -> Trail
    ensures { result ≡ trail_of l.now c.now }
{
    let head = to_u8(c[0]);
    let len = to_u8(c[1]);
    Trail { buf: *l, head, len }
}

// Lays the trail out in the arrays.
pub fn put_trail(t: Trail, l: &mut [f64; 256], c: &mut [u64; 2])
    ensures { (l.new ≡ t.buf) × (c.new ≡ trail_marks t) }
{
    let buf = t.buf;
    *l = buf;
    *c = [t.head as u64, t.len as u64];
}
