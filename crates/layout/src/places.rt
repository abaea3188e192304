// Counts in narrower fields, where one that does not fit becomes the field's largest; and the numbers from a place of an array on.
ghost use Rattle.std.specs.Prelude.{◌≡◌, ◌+◌, ◌≤◌, length};
ghost use Rattle.layout.specs.Places.{in8, in16, in32, part as part_of};

pub fn to_u8(x: u64) -> u8
    ensures { result ≡ in8 x }
{
    u8::try_from(x).unwrap_or(u8::MAX)
}

pub fn to_u16(x: u64) -> u16
    ensures { result ≡ in16 x }
{
    u16::try_from(x).unwrap_or(u16::MAX)
}

pub fn to_u32(x: u64) -> u32
    ensures { result ≡ in32 x }
{
    u32::try_from(x).unwrap_or(u32::MAX)
}

// The N numbers from a place on.
pub(crate) fn part<const N: usize>(l: &[f64], start: usize) -> [f64; N]
    requires { start + N ≤ length l.now }
    ensures { result ≡ part_of l.now start N }
{
    let mut r = [0.0; N];
    r.copy_from_slice(&l[start..start + N]);
    r
}
