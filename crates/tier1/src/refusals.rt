// Why a tick is refused before anything is computed.
ghost use Rattle.std.specs.Prelude.{◌≡◌};
ghost use Rattle.std.specs.Float.{binary64};
ghost use Rattle.refusal.specs.Order.{given, judged_by, refusal};
ghost use Rattle.conformal.specs.Rule.{Tables};
ghost use Rattle.envelope.specs.Refusals.{config_judged};
ghost use Rattle.tier1.specs.Of.{judged};
ghost use Rattle.tier1.specs.Refusals.{new_judged, state_judged, some_not_finite_in};

use crate::Tier1Rt;
use chunk::Header;
use conformal::Scores;
use envelope::FuseConfig;
use refusal::Refusal;

// Why a new chunk is refused: by its sizes or its width.
fn new_refusal(there: bool, k: Header, len: usize, dim: usize) -> Result<(), Refusal>
    ensures { result ≡ judged_by (given (new_judged there k len dim)) }
{
    if !there {
        return Ok(());
    }
    let sizes = chunk::chunk_refusal(k, len);
    let d = k.dim as usize;
    let width = Refusal::when(Refusal::WIDTH, d != dim);
    Refusal::earlier(sizes, width)
}

// Why a state is refused: by its trail, the chunk before or the held features.
pub(crate) fn state_refusal(rt: Tier1Rt) -> Result<(), Refusal>
    ensures { result ≡ judged_by (given (state_judged rt)) }
{
    let t = rt.trail;
    let of_samples = Refusal::when(Refusal::NOT_FINITE, t.unfit());
    let of_trail = Refusal::or_later(Refusal::when(Refusal::SIZE, t.out_of_size()), of_samples);
    let prev = rt.prev;
    let of_prev = prev.held_refusal();
    let held = rt.held;
    let of_held = Refusal::when(Refusal::NOT_FINITE, !fmath::all_finite(&held, 6));
    let later = Refusal::earlier(of_prev, of_held);
    Refusal::earlier(of_trail, later)
}

// Whether some number that is lent, read or not, is not finite.
fn not_finite(pos: &[f64], ext: &[f64], there: bool, rows: &[f64], sc: Scores) -> bool
    ensures { result ≡ some_not_finite_in pos.now ext.now there rows.now sc }
{
    let k = fmath::all_finite(pos, pos.len());
    let l = fmath::all_finite(ext, ext.len());
    let m = fmath::all_finite(rows, rows.len());
    let n = conformal::scores_ok(sc);
    !k | !l | (there & !m) | !n
}

// Why a tick is refused: by its configuration, or by anything that is lent.
pub(crate) fn features_refusal(
    c: FuseConfig,
    config: Result<(), Refusal>,
    rt: Tier1Rt,
    pos: &[f64],
    ext: &[f64],
    there: bool,
    k: Header,
    rows: &[f64],
    sc: Scores,
) -> Result<(), Refusal>
    ensures { (t : Tables) → config ≡ judged_by (refusal (config_judged binary64 c t)) → result ≡ judged_by (given (judged binary64 c t pos.now ext.now there k rows.now rt sc)) }
{
    let new = new_refusal(there, k, rows.len(), c.dim);
    let state = state_refusal(rt);
    let bad = not_finite(pos, ext, there, rows, sc);
    let lent = Refusal::when(Refusal::NOT_FINITE, bad);
    let later = Refusal::earlier(state, lent);
    let from_new = Refusal::earlier(new, later);
    Refusal::earlier(config, from_new)
}
