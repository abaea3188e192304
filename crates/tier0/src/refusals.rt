// Why what is lent is refused.
ghost use Rattle.std.specs.Prelude.{◌≡◌, [], ◌∷◌, ◌++◌, length};
ghost use Rattle.std.specs.Float.{binary64};
ghost use Rattle.refusal.specs.Order.{judged_by, refusal};
ghost use Rattle.fmath.specs.Answer.{some_lent_not_finite};
ghost use Rattle.chunk.specs.Refusals.{chunk_reasons};
ghost use Rattle.conformal.specs.Rule.{Tables};
ghost use Rattle.envelope.specs.Refusals.{config_judged};
ghost use Rattle.tier0.specs.Refusals.{too_short, chunk_too_short};
ghost use Rattle.tier0.specs.Of.{lent_to_action, lent_to_chunk};

use chunk::Header;
use envelope::FuseConfig;
use refusal::Refusal;

// Whether a lent slice is shorter than the configuration asks.
fn too_short(dim: usize, pos_dim: usize, pos: usize, prev: usize, a: usize, room: usize) -> bool
    ensures { result ≡ too_short dim pos_dim pos prev a room }
{
    (pos < pos_dim) | (prev < dim) | (a < dim) | (room < dim)
}

// Whether some number that is lent, read or not, is not finite.
fn not_finite(pos: &[f64], aux: &[f64], prev: &[f64], a: &[f64]) -> bool
    ensures { result ≡ some_lent_not_finite (pos.now ∷ aux.now ∷ prev.now ∷ a.now ∷ []) }
{
    let k = fmath::all_finite(pos, pos.len());
    let l = fmath::all_finite(aux, aux.len());
    let m = fmath::all_finite(prev, prev.len());
    let n = fmath::all_finite(a, a.len());
    !k | !l | !m | !n
}

// Why what is lent with an action is refused: by 11, then by 12.
fn lent_refusal(
    c: FuseConfig,
    pos: &[f64],
    aux: &[f64],
    prev: &[f64],
    a: &[f64],
    room: usize,
) -> Result<(), Refusal>
    ensures { result ≡ judged_by (refusal (lent_to_action c pos.now aux.now prev.now a.now room [])) }
{
    let short = too_short(c.dim, c.pos_dim, pos.len(), prev.len(), a.len(), room);
    Refusal::when(Refusal::SHORT, short)?;
    Refusal::when(Refusal::NOT_FINITE, not_finite(pos, aux, prev, a))
}

// Why an action is refused: by what is judged of its configuration, then by what is lent.
pub(crate) fn action_refusal(
    c: FuseConfig,
    config: Result<(), Refusal>,
    pos: &[f64],
    aux: &[f64],
    prev: &[f64],
    a: &[f64],
    room: usize,
) -> Result<(), Refusal>
    ensures { (t : Tables) → config ≡ judged_by (refusal (config_judged binary64 c t)) → result ≡ judged_by (refusal (config_judged binary64 c t ++ lent_to_action c pos.now aux.now prev.now a.now room [])) }
{
    Refusal::or_later(config, lent_refusal(c, pos, aux, prev, a, room))
}

// Whether the position is shorter than pos_dim, or the output than the chunk.
fn chunk_too_short(pos_dim: usize, pos: usize, size: usize, room: usize) -> bool
    ensures { result ≡ chunk_too_short pos_dim pos size room }
{
    (pos < pos_dim) | (room < size)
}

// Why what is lent with a chunk is refused: by 10, then by 11, then by 12.
fn rows_refusal(
    c: FuseConfig,
    pos: &[f64],
    aux: &[f64],
    rows: &[f64],
    header: Header,
    room: usize,
) -> Result<(), Refusal>
    ensures { result ≡ judged_by (refusal (lent_to_chunk c pos.now aux.now rows.now header room [])) }
{
    let h = header.horizon as usize;
    let d = header.dim as usize;
    Refusal::when(Refusal::WIDTH, d != c.dim)?;
    let brief = chunk_too_short(c.pos_dim, pos.len(), h * d, room);
    Refusal::when(Refusal::SHORT, brief)?;
    Refusal::when(Refusal::NOT_FINITE, fmath::some_not_finite(pos, aux, rows))
}

// Why a chunk is refused: by what is judged of its configuration, then by its sizes, then by what is lent.
pub(crate) fn chunk_refusal(
    c: FuseConfig,
    config: Result<(), Refusal>,
    pos: &[f64],
    aux: &[f64],
    rows: &[f64],
    header: Header,
    room: usize,
) -> Result<(), Refusal>
    ensures { (t : Tables) → config ≡ judged_by (refusal (config_judged binary64 c t)) → result ≡ judged_by (refusal (config_judged binary64 c t ++ (chunk_reasons header (length rows.now) ++ lent_to_chunk c pos.now aux.now rows.now header room []))) }
{
    let sizes = chunk::chunk_refusal(header, rows.len());
    let lent = rows_refusal(c, pos, aux, rows, header, room);
    Refusal::or_later(config, Refusal::or_later(sizes, lent))
}
