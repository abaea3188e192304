// Little-endian numbers in bytes, and the floats that patterns of 64 bits stand for.
#![tactic(auto)]

ghost use Rattle.std.specs.Prelude.{◌≡◌, ◌+◌, ◌≤◌, ◌<◌, get_or};
ghost use Rattle.std.specs.Float.{binary64};
ghost use Rattle.std.specs.Float.Ieee.{of_bits, to_bits};
ghost use Rattle.words.specs.Little.{little};

fn wide(b: u8) -> u64
    ensures { (result ≡ b) × (result < 256) }
{
    b as u64
}

// Byte i, 0 where there is none.
fn byte(b: &[u8], i: usize) -> u64
    ensures { (result ≡ get_or b.now i 0) × (result < 256) }
{
    if i < b.len() { wide(b[i]) } else { 0 }
}

// The number that two bytes from at on spell, the least first.
fn two(b: &[u8], at: usize) -> u64
    requires { at + 2 ≤ 4294967303 }
    ensures { (result ≡ little 2 b.now at) × (result < 65536) }
{
    let low = byte(b, at);
    let high = byte(b, at + 1);
    low + high * 256
}

// The little-endian number in four bytes.
fn four(b: &[u8], at: usize) -> u64
    requires { at + 4 ≤ 4294967303 }
    ensures { (result ≡ little 4 b.now at) × (result < 4294967296) }
{
    let low = two(b, at);
    let high = two(b, at + 2);
    low + high * 65536
}

// The number that two bytes from at on spell; a byte that is not there counts as 0. The place has 32 bits, so that those after it
// are places, too.
pub fn pair(b: &[u8], at: u32) -> u16
    ensures { result ≡ little 2 b.now at }
{
    let x = two(b, at as usize);
    x as u16
}

// The little-endian number in eight bytes.
pub fn word(b: &[u8], at: u32) -> u64
    ensures { result ≡ little 8 b.now at }
{
    let from = at as usize;
    let low = four(b, from);
    let high = four(b, from + 4);
    low + high * 4294967296
}

// The float of a pattern. Each pattern of a NaN gives the one NaN, which is made by 0.0 / 0.0.
pub fn float_of(bits: u64) -> f64
    ensures { result ≡ of_bits binary64 bits }
{
    let field = bits % 0x8000_0000_0000_0000 / 0x10_0000_0000_0000;
    let digits = bits % 0x10_0000_0000_0000;
    if (field == 2047) & (digits != 0) {
        return 0.0 / 0.0;
    }
    f64::from_bits(bits)
}

// The pattern of a float, 7ff8000000000000 for a NaN.
pub fn pattern(x: f64) -> u64
    ensures { result ≡ to_bits binary64 x }
{
    if x != x {
        return 0x7ff8_0000_0000_0000;
    }
    f64::to_bits(x)
}
