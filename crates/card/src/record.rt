// A record's bytes and the card that they spell.
ghost use Rattle.std.specs.Prelude.{◌≡◌};
ghost use Rattle.card.specs.Record.{card_at};

use words::{pair, word};

// A record's eleven numbers, each as its 64 bits, and its four counts.
#[derive(Clone, Copy)]
pub struct Card {
    pub k_p: u64,
    pub k_v: u64,
    pub dt: u64,
    pub lo: u64,
    pub hi: u64,
    pub p: u64,
    pub v: u64,
    pub row0: u64,
    pub row1: u64,
    pub row2: u64,
    pub row3: u64,
    pub substeps: u16,
    pub commit: u16,
    pub brake_steps: u16,
    pub from: u16,
}

// The card that the first 96 bytes spell; a byte that is not there counts as 0.
pub fn decode(b: &[u8]) -> Card
    ensures { result ≡ card_at b.now 0 }
{
    Card {
        k_p: word(b, 0),
        k_v: word(b, 8),
        dt: word(b, 16),
        lo: word(b, 24),
        hi: word(b, 32),
        p: word(b, 40),
        v: word(b, 48),
        row0: word(b, 56),
        row1: word(b, 64),
        row2: word(b, 72),
        row3: word(b, 80),
        substeps: pair(b, 88),
        commit: pair(b, 90),
        brake_steps: pair(b, 92),
        from: pair(b, 94),
    }
}
