// Bits and their weights.
#![tactic(auto)]

ghost use Rattle.std.specs.Prelude.{◌≡◌, ◌≤◌, if◌then◌else◌};

// The weight of a bit that is set, else 0.
pub fn weight(on: bool, w: u32) -> u32
    ensures { (result ≡ (if on then w else 0)) × (result ≤ w) }
{
    if on { w } else { 0 }
}
