// The numbers on the wall (R10.7) that are run, as the proved code gives them. The proved ones are one theorem, specs/Table.antt.
#![tactic(auto)]

use card::Card;
use refusal::Refusal;

// The bin of tick t on a horizon of 200, or 16 where there is none.
fn bin_of(t: u32) -> u64 {
    match conformal::time_bin(t, 200) {
        Ok(b) => b as u64,
        Err(_) => 16,
    }
}

// The number that judging gives F1 with 64 committed steps of 64 substeps, and so many braking steps.
fn number_of(brake_steps: u16) -> u64 {
    let one = 0x3ff0_0000_0000_0000;
    let two = 0x4000_0000_0000_0000;
    let card = Card {
        k_p: two,
        k_v: one,
        dt: 0x3fe0_0000_0000_0000,
        lo: 0xbff0_0000_0000_0000,
        hi: two,
        p: 0,
        v: 0,
        row0: one,
        row1: one,
        row2: one,
        row3: one,
        substeps: 64,
        commit: 64,
        brake_steps,
        from: 0,
    };
    let unread = [1.0; 192];
    let compiled = envelope::compile(card::configure(card), &unread, &unread);
    Refusal::number_of(compiled.judged) as u64
}

// One line: what is asked, and the number.
fn line(to: &impl Print, asked: &str, number: u64) {
    let _ = println!(to; "{asked}{number}");
}

fn main(rt: HostRuntime) {
    line(&rt, "horizon_ticks 200, t 12: bin ", bin_of(12));
    line(&rt, "horizon_ticks 200, t 13: bin ", bin_of(13));
    line(&rt, "horizon_ticks 200, t 14: bin ", bin_of(14));
    line(&rt, "horizon_ticks 200, t 200: bin ", bin_of(200));
    line(&rt, "commit 64, brake_steps 0, substeps 64: ", number_of(0));
    line(&rt, "commit 64, brake_steps 1, substeps 64: ", number_of(1));
}
