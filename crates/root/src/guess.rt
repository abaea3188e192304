// A guess at the root that is confirmed in whole numbers, in front of the rounds: nothing depends on it but time.
ghost use Rattle.std.specs.Prelude.{◌≡◌, ◌+◌, ◌*◌, ◌/◌, ◌^◌, ◌<◌, from_bits};
ghost use Rattle.std.specs.Float.{binary64};
ghost use Rattle.root.specs.Root.{near_root, root_of};
ghost use Rattle.root.specs.Of.{Written};

use crate::rounds::{nearest, put_together, rounds, scale, take_apart};

// The highest 32 digits of 64.
fn top(x: u64) -> u32 {
    (x / 0x1_0000_0000) as u32
}

// The lowest 32 digits of 64.
fn bottom(x: u64) -> u32 {
    (x % 0x1_0000_0000) as u32
}

fn product(a: u32, b: u32) -> u64
    ensures { result ≡ a * b }
{
    (a as u64) * (b as u64)
}

// About the root of a number t / 2^30 between 1 and 4, and about one over it, each times 2^31. Nothing is promised of either.
#[derive(Clone, Copy)]
struct Estimate {
    root: u32,
    inverse: u32,
}

// A number in two parts, a * 2^21 + b.
#[derive(Clone, Copy)]
struct Split {
    a: u32,
    b: u32,
}

// One over the root to 7 digits, c0 + c1 v + c4 v^4 with v = 4 - t / 2^30, and t times it.
fn first_estimate(t: u32) -> Estimate {
    let v = 0xffff_ffff - t;
    let v2 = top(product(v, v));
    let v4 = top(product(v2, v2));
    let y = top(0x3fc0_0000_0000_0000 + product(v, 0x2773_0000) + product(v4, 0x6bc6_0000));
    Estimate {
        root: bottom(product(t, y) / 0x4000_0000),
        inverse: y,
    }
}

// Twice as many digits: both are multiplied by 3/2 - root * inverse / 2, the 3/2 times 2^63.
fn better_estimate(e: Estimate, three_halves: u64) -> Estimate {
    let k = top(std::num::wrapping_sub_u64(three_halves, product(e.root, e.inverse)));
    Estimate {
        root: bottom(product(e.root, k) / 0x8000_0000),
        inverse: bottom(product(e.inverse, k) / 0x8000_0000),
    }
}

// About the root of w * 2^42, a little below it: an estimate that is a little low, and what is left of w over twice the estimate. Any answer would do.
fn guess(w: u64) -> Split
    ensures { result.b < 2 ^ 29 }
{
    let first = first_estimate(top(w));
    let second = better_estimate(first, 0xc000_0000_0000_0000);
    let e = better_estimate(second, 0xbfff_fffc_0000_0000);
    let over = std::num::wrapping_sub_u64(w, product(e.root, e.root));
    Split {
        a: e.root,
        b: (product(bottom(over / 128), e.inverse) / 0x8_0000_0000) as u32,
    }
}

// What w * 2^42 has above the square of a * 2^21 + b; 2^64 - 1 where it has less, or far more.
fn remainder(w: u64, s: Split) -> u64
    requires { s.b < 2 ^ 29 }
    ensures { result < 2 ^ 63 → (s.a * 2 ^ 21 + s.b) * (s.a * 2 ^ 21 + s.b) + result ≡ w * 2 ^ 42 }
{
    let none = 0xffff_ffff_ffff_ffff;
    let square = product(s.a, s.a);
    if w < square {
        return none;
    }
    let first = w - square;
    if first >= 0x100_0000_0000 {
        return none;
    }
    let second = std::num::wrapping_sub_u64(first * 0x10_0000, product(s.a, s.b));
    if second >= 0x100_0000_0000 {
        return none;
    }
    std::num::wrapping_sub_u64(second * 0x40_0000, product(s.b, s.b))
}

// The whole number nearest to the root of w * 2^42: a guess that its remainder confirms, or else the rounds.
fn nearest_root(w: u64) -> u64
    ensures { result ≡ near_root 53 (w * 4 ^ 53 / 2 ^ 64) }
{
    let s = guess(w);
    let rest = remainder(w, s);
    let root = (s.a as u64) * 0x20_0000 + s.b as u64;
    if rest <= 3 * root {
        return nearest(root, rest);
    }
    rounds(w, 53)
}

// The bits of the root, from those of a finite number above zero. A subnormal one is left to the rounds, so that the compiler knows how many digits any other has.
pub(crate) fn root_bits(bits: u64) -> u64
    requires { (0 < bits) × (bits < 0x7ff0_0000_0000_0000) }
    ensures { Written binary64 result (root_of binary64 (from_bits binary64 bits)) }
{
    if bits < 0x10_0000_0000_0000 {
        return crate::rounds::root_bits(bits);
    }
    let scaled = scale(take_apart(bits), 53);
    put_together(nearest_root(scaled.digits), scaled.exponent)
}
