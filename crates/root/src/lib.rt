// The square root of an `f64`, correctly rounded, worked out from its bits in 64-bit integers.
#![tactic(auto)]

ghost use Rattle.std.specs.Prelude.{◌≡◌, false};
ghost use Rattle.std.specs.Float.{binary64};
ghost use Rattle.std.specs.Float.Ieee.Positive.{positive};
ghost use Rattle.root.specs.Root.{root_of};

mod guess;
mod rounds;

// Whether a number is finite and above zero, so that there are digits to work on.
fn has_digits(x: f64) -> bool
    ensures { result ≡ positive x }
{
    if 0.0 < x {
        f64::to_bits(x) < 0x7ff0_0000_0000_0000
    } else {
        false
    }
}

// The root of any other number: of a zero that zero, else a NaN.
fn root_without_digits(x: f64) -> f64
    requires { positive x ≡ false }
    ensures { result ≡ root_of binary64 x }
{
    if x == 0.0 { x } else { 0.0 / 0.0 }
}

// The root, to nearest; a zero's is that zero, and it is a NaN below zero, at an infinity and at a NaN.
pub fn sqrt(x: f64) -> f64
    ensures { result ≡ root_of binary64 x }
{
    if has_digits(x) {
        f64::from_bits(guess::root_bits(f64::to_bits(x)))
    } else {
        root_without_digits(x)
    }
}

// The same by the rounds alone, for those who step through it.
pub fn sqrt_by_rounds(x: f64) -> f64
    ensures { result ≡ root_of binary64 x }
{
    if has_digits(x) {
        f64::from_bits(rounds::root_bits(f64::to_bits(x)))
    } else {
        root_without_digits(x)
    }
}
