// The feature of the trail, and all twelve of a tick.
ghost use Rattle.std.specs.Prelude.{◌≡◌, ◌^◌, ◌<◌};
ghost use Rattle.std.specs.Float.{binary64};
ghost use Rattle.tier1.specs.Rule.{ineff_at, valid_at, value_at, twelve};
ghost use Rattle.envelope.specs.Derive.{kept};
ghost use Rattle.tier1.specs.Of.{gathered_from, twelve_from};
ghost use Rattle.checked.specs.Of.{reckoned_from};

use crate::held::absent;
use crate::{AllFeatures, EPS, Manifest};
use checked::Reckoned;
use conformal::Feat;
use window::Trail;

// How many samples of the trail PathIneff looks at.
const PE_WINDOW: u8 = 20;

// PathIneff of the last samples. The way is tested by itself, since a quotient by it hides an infinity.
fn path_ineff(m: Manifest, t: Trail) -> Reckoned
    ensures { result ≡ reckoned_from (ineff_at binary64 m t) }
{
    if t.len < PE_WINDOW {
        return absent();
    }
    let n = t.displacement(m.pos_dim, PE_WINDOW as usize);
    let p = t.travelled(m.pos_dim, PE_WINDOW as usize);
    let value = 1.0 - n / fmath::max(p, EPS);
    let a = fmath::finite(p);
    let b = fmath::finite(value);
    Reckoned {
        value,
        sound: a & b,
    }
}

// Whether feature j, whose bit has the weight w, is valid.
fn valid_at(held: u32, len: u8, ext: usize, j: usize, w: u32) -> bool
    requires { (0 < w) × (w ≡ 2 ^ j) }
    ensures { result ≡ valid_at held len ext j }
{
    if j < Feat::PATH_INEFF {
        return held / w % 2 == 1;
    }
    if j < Feat::STALL {
        return PE_WINDOW <= len;
    }
    if j < Feat::EXT0 {
        return false;
    }
    j - Feat::EXT0 < ext
}

// Feature j, 0.0 where it is not valid.
fn feature_at(on: bool, held: &[f64; 6], ineff: f64, ext: &[f64], j: usize) -> f64
    ensures { result ≡ kept on (value_at held.now ineff ext.now j) }
{
    if !on {
        return 0.0;
    }
    if j < Feat::PATH_INEFF {
        return held[j];
    }
    if j < Feat::EXT0 {
        return ineff;
    }
    if j - Feat::EXT0 < ext.len() {
        return ext[j - Feat::EXT0];
    }
    0.0 / 0.0
}

// The held features, PathIneff and the external ones, with their bits.
fn gathered(
    held: [f64; 6],
    held_valid: u32,
    len: u8,
    ineff: f64,
    sound: bool,
    ext: &[f64],
) -> AllFeatures
    ensures { result ≡ gathered_from held held_valid len ineff sound ext.now }
{
    let mut f = [0.0; 12];
    let mut valid = 0u32;
    let mut w = 1u32;
    for j in 0..Feat::COUNT {
        let on = valid_at(held_valid, len, ext.len(), j, w);
        f[j] = feature_at(on, &held, ineff, ext, j);
        valid += bits::weight(on, w);
        w *= 2;
    }
    AllFeatures { f, valid, sound }
}

// All twelve features of a tick.
pub(crate) fn twelve(
    m: Manifest,
    t: Trail,
    held: [f64; 6],
    held_valid: u32,
    ext: &[f64],
) -> AllFeatures
    ensures { result ≡ twelve_from (twelve binary64 m t held held_valid ext.now) }
{
    let p = path_ineff(m, t);
    gathered(held, held_valid, t.len, p.value, p.sound, ext)
}
