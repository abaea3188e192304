// When the port agrees with the sample of the Rust's answers.
#![tactic(auto)]

ghost use Rattle.std.specs.Prelude.{◌≡◌};
ghost use Rattle.sample.specs.Agrees.{agrees};

// Whether an answer has as many numbers as the one that is kept, each the same number: the two zeros are the same, a NaN is the same as none.
pub fn agrees(kept: &[f64], got: &[f64]) -> bool
    ensures { result ≡ agrees kept.now got.now }
{
    if kept.len() != got.len() {
        return false;
    }
    let mut ok = true;
    for (j, number) in got.iter().enumerate() {
        ok = ok & (kept[j] == *number);
    }
    ok
}
