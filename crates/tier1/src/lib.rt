// Tier 1: the scores that the gate decides on, each larger the less ordinary the motion is.
#![tactic(auto)]

ghost use Rattle.std.specs.Prelude.{◌≡◌, true, ◌*◌, ◌≤◌, if◌then◌else◌};
ghost use Rattle.std.specs.Float.{binary64};
ghost use Rattle.refusal.specs.Order.{refusal, refused_for};
ghost use Rattle.conformal.specs.Of.{tables};
ghost use Rattle.tier1.specs.Of.{whole_answer, kept_of, manifest_from, new_rt, held_from, out_of, after_chunk, features_of, reset_of};
ghost use Rattle.chunk.specs.Refusals.{lent_reasons};
ghost use Rattle.chunk.specs.Of.{fill_of};

use crate::held::boundary;
use crate::refusals::{features_refusal, state_refusal};
use crate::tick::twelve;
use chunk::{ChunkBuf, Header};
use conformal::Scores;
use envelope::{Derived, FuseConfig};
use refusal::Refusal;
use window::Trail;

mod held;
mod refusals;
mod sums;
mod tick;

// What is held between ticks: the chunk before, the trail of positions, and the features of the last chunk, bits 0 to 5. C lays `have_prev` out beside a
// chunk that is kept in either case.
#[derive(Clone, Copy)]
pub struct Tier1Rt {
    pub prev: ChunkBuf,
    pub have_prev: bool,
    pub trail: Trail,
    pub held: [f64; 6],
    pub held_valid: u32,
}

// What the features read of a configuration, and of what is derived from it.
#[derive(Clone, Copy)]
pub struct Manifest {
    pub dim: usize,
    pub pos_dim: usize,
    pub center: [f64; 8],
    pub inverse: [f64; 8],
    pub iso: f64,
}

// Two features. In each struct below, `sound` says that each number computed on the way is finite; the features are promised also where it is false.
#[derive(Clone, Copy)]
pub struct Pair {
    pub first: f64,
    pub second: f64,
    pub sound: bool,
}

// The features of a chunk and their bits.
#[derive(Clone, Copy)]
pub struct SixFeatures {
    pub held: [f64; 6],
    pub valid: u32,
    pub sound: bool,
}

// All twelve features of a tick and their bits.
#[derive(Clone, Copy)]
pub struct AllFeatures {
    pub f: [f64; 12],
    pub valid: u32,
    pub sound: bool,
}

// What is said of the chunk before besides its rows; `there` where there is one.
#[derive(Clone, Copy)]
pub struct Kept {
    pub there: bool,
    pub t_emit: u32,
    pub horizon: usize,
    pub dim: usize,
}

// What a tick finds: its features, and the held ones after it; on refusal those that came in.
#[derive(Clone, Copy)]
pub struct TickOut {
    pub refusal: Refusal,
    pub held: [f64; 6],
    pub held_valid: u32,
    pub f: [f64; 12],
    pub valid: u32,
}

// The state and the scores after a tick; on refusal those that came in.
#[derive(Clone, Copy)]
pub struct Featured {
    pub refusal: Refusal,
    pub rt: Tier1Rt,
    pub scores: Scores,
}

// The state with nothing held; on refusal the one that came in.
#[derive(Clone, Copy)]
pub struct Cleared {
    pub refusal: Refusal,
    pub rt: Tier1Rt,
}

fn manifest_of(c: FuseConfig, d: Derived) -> Manifest
    ensures { result ≡ manifest_from c d }
{
    let center = c.norm.center;
    let inverse = d.inv_norm_scale;
    Manifest {
        dim: c.dim,
        pos_dim: c.pos_dim,
        center,
        inverse,
        iso: d.norm_scale_iso,
    }
}

fn kept_of(rt: Tier1Rt) -> Kept
    ensures { result ≡ kept_of rt }
{
    let prev = rt.prev;
    let header = prev.header;
    Kept {
        there: rt.have_prev & prev.filled,
        t_emit: header.t_emit,
        horizon: header.horizon as usize,
        dim: header.dim as usize,
    }
}

pub(crate) const EPS: f64 = 0.000000001;

impl Tier1Rt {
    // Nothing is held yet.
    pub fn new() -> Tier1Rt
        ensures { result ≡ new_rt }
    {
        let prev = ChunkBuf::new();
        let trail = Trail::new();
        let held = [0.0; 6];
        Tier1Rt {
            prev,
            have_prev: false,
            trail,
            held,
            held_valid: 0,
        }
    }

    // Forgets the chunk before, the trail and the held features, as between episodes. A damaged state is refused and stays.
    pub fn reset(self) -> Cleared
        ensures { result ≡ reset_of self }
    {
        let number = Refusal::number_of(state_refusal(self));
        let refusal = Refusal::of(number);
        if number != 0 {
            return Cleared { refusal, rt: self };
        }
        let old = self.prev;
        let prev = old.emptied();
        let t = self.trail;
        let buf = t.buf;
        let trail = Trail {
            buf,
            head: 0,
            len: 0,
        };
        let have_prev = false;
        let rt = Tier1Rt {
            prev,
            have_prev,
            trail,
            held: [0.0; 6],
            held_valid: 0,
        };
        Cleared { refusal, rt }
    }
}

// A refused tick finds what came in.
fn unchanged(number: u8, rt: Tier1Rt, sc: Scores) -> TickOut
    ensures { result ≡ out_of (record { refusal = refused_for number; rt = rt; scores = sc }) }
{
    let refusal = Refusal::of(number);
    let held = rt.held;
    let f = sc.f;
    TickOut {
        refusal,
        held,
        held_valid: rt.held_valid,
        f,
        valid: sc.valid,
    }
}

// The held features after a chunk, where there is one: it replaces all of them, invalid ones too.
fn held_after(
    m: Manifest,
    rt: Tier1Rt,
    pos: &[f64],
    there: bool,
    k: Header,
    rows: &[f64],
) -> SixFeatures
    requires { (m.dim ≤ 8) × (there ≡ true → (refusal (lent_reasons rows.now k) ≡ 0) × (k.dim ≡ m.dim)) × (rt.prev.filled ≡ true → (rt.prev.header.horizon ≤ 64) × (rt.prev.header.horizon * rt.prev.header.dim ≤ 512)) }
    ensures { result ≡ held_from (after_chunk binary64 m pos.now there k rows.now rt) }
{
    if !there {
        let held = rt.held;
        return SixFeatures {
            held,
            valid: rt.held_valid,
            sound: true,
        };
    }
    let kept = kept_of(rt);
    let h = k.horizon as usize;
    boundary(m, kept, &rt.prev.data, pos, k.t_emit, h, rows)
}

// What a tick finds: the features of `features`, without the chunk that is kept. `there` stands beside the lent chunk, and no Option of a view in their place:
// of a contract whose argument holds a reference the prover makes no plain reading, on which `one_one_tick` and `one_features` rest.
pub fn one_tick(
    c: FuseConfig,
    center: &[f64; 192],
    scale: &[f64; 192],
    rt: Tier1Rt,
    pos: &[f64],
    ext: &[f64],
    there: bool,
    k: Header,
    rows: &[f64],
    sc: Scores,
) -> TickOut
    ensures { result ≡ out_of (features_of binary64 c (tables center.now scale.now) pos.now ext.now there k rows.now rt sc) }
{
    let compiled = envelope::compile(c, center, scale);
    let judged = features_refusal(c, compiled.judged, rt, pos, ext, there, k, rows, sc);
    let number = Refusal::number_of(judged);
    if number != 0 {
        return unchanged(number, rt, sc);
    }
    let m = manifest_of(c, compiled.derived);
    let next = held_after(m, rt, pos, there, k, rows);
    let trail = rt.trail;
    let held = next.held;
    let all = twelve(m, trail, held, next.valid, ext);
    if !(next.sound & all.sound) {
        return unchanged(Refusal::COMPUTED, rt, sc);
    }
    let refusal = Refusal::of(0);
    let f = all.f;
    TickOut {
        refusal,
        held,
        held_valid: next.valid,
        f,
        valid: all.valid,
    }
}

// The chunk before after a tick: the new one, where there is one.
fn prev_after(prev: ChunkBuf, there: bool, k: Header, rows: &[f64]) -> ChunkBuf
    ensures { result ≡ (if there then (fill_of prev k rows.now).buf else prev) }
{
    if !there {
        return prev;
    }
    let filled = prev.fill(k, rows);
    filled.buf
}

// The whole answer of a tick that passes: what it finds, and the chunk that is kept.
fn passed(prev: ChunkBuf, there: bool, rt: Tier1Rt, sc: Scores, a: TickOut) -> Featured
    ensures { result ≡ whole_answer prev there rt sc a }
{
    let refusal = a.refusal;
    let trail = rt.trail;
    let held = a.held;
    let f = a.f;
    let z = sc.z;
    let next = Tier1Rt {
        prev,
        have_prev: there | rt.have_prev,
        trail,
        held,
        held_valid: a.held_valid,
    };
    let scores = Scores {
        f,
        z,
        s: sc.s,
        valid: a.valid,
        fired: sc.fired,
    };
    Featured {
        refusal,
        rt: next,
        scores,
    }
}

// The features of a tick, in the scores' f and valid; their z, s and fired stay. A new chunk, where `there` says that one came,
// replaces the held features and the chunk before; the trail stays. On refusal state and scores are as they came.
pub fn features(
    c: FuseConfig,
    center: &[f64; 192],
    scale: &[f64; 192],
    rt: Tier1Rt,
    pos: &[f64],
    ext: &[f64],
    there: bool,
    k: Header,
    rows: &[f64],
    sc: Scores,
) -> Featured
    ensures { result ≡ features_of binary64 c (tables center.now scale.now) pos.now ext.now there k rows.now rt sc }
{
    let a = one_tick(c, center, scale, rt, pos, ext, there, k, rows, sc);
    let refusal = a.refusal;
    if refusal.number != 0 {
        return Featured {
            refusal,
            rt,
            scores: sc,
        };
    }
    let prev = prev_after(rt.prev, there, k, rows);
    passed(prev, there, rt, sc, a)
}
