// Records of tier 1: the features of a tick with a new chunk.
use crate::config::{UNREAD, config};
use crate::record::{Numbers, Words, exact, header, part, rows_of};
use chunk::ChunkBuf;
use conformal::Scores;
use sample::agrees;
use tier1::Tier1Rt;
use window::Trail;

// A new trail after the record's samples.
fn trail(w: &Words, x: &Numbers) -> Trail {
    let n = fmath::fewer(w[57] as usize, 24) as u16;
    let mut t = Trail::new();
    for i in 0..n {
        t = t.push(part(x, 58 + 8 * i, 8), 8).trail;
    }
    t
}

// The chunk before, where there is one.
fn kept(w: &Words, x: &Numbers) -> ChunkBuf {
    let none = ChunkBuf::new();
    if w[250] == 0 {
        return none;
    }
    let k = header(w[251], w[252], w[253]);
    let filled = none.fill(k, rows_of(x, 254, k));
    filled.buf
}

// The state: the trail and the chunk before, with no feature held.
fn state(w: &Words, x: &Numbers) -> Tier1Rt {
    let prev = kept(w, x);
    let trail = trail(w, x);
    Tier1Rt {
        prev,
        have_prev: w[250] != 0,
        trail,
        held: [0.0; 6],
        held_valid: 0,
    }
}

// Whether scores and state have the features and the held features from word 338 on.
fn is_featured(sc: Scores, rt: Tier1Rt, w: &Words, x: &Numbers) -> bool {
    let f = sc.f;
    let held = rt.held;
    agrees(part(x, 338, 12), &f)
        & agrees(part(x, 351, 6), &held)
        & agrees(
            &[exact(w[350]), exact(w[357])],
            &[sc.valid as f64, rt.held_valid as f64],
        )
}

pub(crate) fn features_agree(w: &Words, x: &Numbers) -> bool {
    let c = config(w, x);
    let rt = state(w, x);
    let pos = part(x, 287, w[286]);
    let ext = part(x, 296, w[295]);
    let k = header(w[304], w[305], w[0]);
    let rows = rows_of(x, 306, k);
    let none = Scores {
        f: [0.0; 12],
        z: [0.0; 12],
        s: 0.0,
        valid: 0,
        fired: 0,
    };
    let a = tier1::features(c, &UNREAD, &UNREAD, rt, pos, ext, true, k, rows, none);
    (a.refusal.number == 0) & is_featured(a.scores, a.rt, w, x)
}
