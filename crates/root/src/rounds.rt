// The root that a trainee steps through, from the bits of a number to the bits of its root: take apart, scale, rounds, round to nearest, put together.
ghost use Rattle.std.specs.Prelude.{◌≡◌, ◌+◌, ◌*◌, ◌/◌, ◌^◌, ◌<◌, ◌≤◌, if◌then◌else◌, from_bits, nat_lt};
ghost use Rattle.std.specs.Float.{binary64};
ghost use Rattle.std.specs.Float.Ieee.{prec};
ghost use Rattle.root.specs.Root.{near_root, number, root_of};
ghost use Rattle.root.specs.Of.{Packable, Ranged, Scaled, unpacked, Written};

// The number digits * 2^exponent, the exponent as low as -1074 where a number is read. Of what `scale` gives: the bits of X at the top of 64, and the root's exponent.
#[derive(Clone, Copy)]
pub(crate) struct Parts {
    pub(crate) digits: u64,
    pub(crate) exponent: i64,
}

// The parts of a finite number above zero, from its bits. A normal number has a leading one that is not written.
pub(crate) fn take_apart(bits: u64) -> Parts
    requires { bits < 0x7ff0_0000_0000_0000 }
    ensures { result ≡ unpacked binary64 bits }
{
    let normal = (0x10_0000_0000_0000 <= bits) as u64;
    Parts {
        digits: bits % 0x10_0000_0000_0000 + normal * 0x10_0000_0000_0000,
        exponent: (bits / 0x10_0000_0000_0000 - normal) as i64 - 1074,
    }
}

// The number as X * 4^e, where X has twice as many bits as the root is to have, or one less: X at the top of 64 bits, and e, the root's exponent, which may be negative.
pub(crate) fn scale(number: Parts, precision: u64) -> Parts
    requires { Ranged number precision }
    ensures { Scaled precision number result }
{
    let size = 64 - u64::leading_zeros(number.digits) as u64;
    let exponent = (number.exponent + (size + 1) as i64 - (2 * precision) as i64) >> 1;
    Parts {
        digits: number.digits << ((number.exponent - 2 * exponent) as u64 + 64 - 2 * precision),
        exponent: exponent,
    }
}

// The whole number nearest to the root of left * 4^precision / 2^64, two bits of the root a round: the next four bits come down (two in the first round where
// precision is odd: the pair before them is 00), and the digit 0 to 3 is the greatest whose digit * (8 * root + digit) fits. No round branches on it.
pub(crate) fn rounds(mut left: u64, precision: u64) -> u64
    requires { precision ≤ 60 }
    ensures { result ≡ near_root precision (left * 4 ^ precision / 2 ^ 64) }
{
    let mut root = 0u64;
    let mut rest = 0u64;
    for round in 0..(precision + 1) / 2 {
        let down = 4 - 2 * (precision % 2) * (round == 0) as u64;
        let next = 16 * rest + (left >> (64 - down));
        let digit = (8 * root + 1 <= next) as u64
            + (16 * root + 4 <= next) as u64
            + (24 * root + 9 <= next) as u64;
        rest = next - digit * (8 * root + digit);
        root = 4 * root + digit;
        left = left << down;
    }
    nearest(root, rest)
}

// The root, or the next number where the rest is more than the root.
pub(crate) fn nearest(root: u64, rest: u64) -> u64
    requires { root < 2 ^ 63 }
    ensures { result ≡ (if nat_lt root rest then root + 1 else root) }
{
    root + (root < rest) as u64
}

// The bits of digits * 2^exponent, for digits with their leading one, which adds one to the exponent's field.
pub(crate) fn put_together(digits: u64, exponent: i64) -> u64
    requires { Packable binary64 digits exponent }
    ensures { Written binary64 result (number (prec binary64) digits exponent) }
{
    (exponent + 1074) as u64 * 0x10_0000_0000_0000 + digits
}

// The bits of the root, from those of a finite number above zero.
pub(crate) fn root_bits(bits: u64) -> u64
    requires { (0 < bits) × (bits < 0x7ff0_0000_0000_0000) }
    ensures { Written binary64 result (root_of binary64 (from_bits binary64 bits)) }
{
    let scaled = scale(take_apart(bits), 53);
    put_together(rounds(scaled.digits, 53), scaled.exponent)
}
