// Why a call is refused: a number of the table (R0), as C is given it and the theorems `NAME-exactly` state it, and, for a computed number that isn't
// finite, its place.
#![tactic(auto)]

ghost use Rattle.std.specs.Prelude.{◌≡◌, Ok, Err, if◌then◌else◌};
ghost use Rattle.refusal.specs.Order.{earlier, judged_by, number_given, or_later, refused_for};

#[derive(Clone, Copy)]
pub struct Refusal {
    pub number: u8,
    pub place: usize,
}

impl Refusal {
    pub const SIZE: u8 = 1;

    pub const NUMBER: u8 = 2;

    pub const STEPS: u8 = 3;

    pub const CHANNELS: u8 = 4;

    pub const SHAPE: u8 = 15;

    pub const WITHDRAWN: u8 = 17;

    pub const EMPTY: u8 = 5;

    pub const TOO_LONG: u8 = 6;

    pub const TOO_WIDE: u8 = 7;

    pub const EXEC_EXCEEDS_HORIZON: u8 = 8;

    pub const LEN_MISMATCH: u8 = 9;

    pub const WIDTH: u8 = 10;

    pub const SHORT: u8 = 11;

    pub const NOT_FINITE: u8 = 12;

    pub const COMPUTED: u8 = 13;

    pub const LEFTOVER: u8 = 14;

    // A refusal without a place.
    pub fn of(number: u8) -> Self
        ensures { result ≡ refused_for number }
    {
        Refusal { number, place: 0 }
    }

    // Refused with a number where its reason applies.
    pub fn when(number: u8, applies: bool) -> Result<(), Refusal>
        ensures { result ≡ (if applies then Err (refused_for number) else Ok tt) }
    {
        if applies {
            Err(Refusal::of(number))
        } else {
            Ok(())
        }
    }

    // The refusal of a part, else what the parts judged after it come to.
    pub fn or_later(part: Result<(), Refusal>, later: Result<(), Refusal>) -> Result<(), Refusal>
        ensures { result ≡ or_later part later }
    {
        match part {
            Ok(()) => later,
            Err(r) => Err(r),
        }
    }

    // The number of what is judged: 0 where nothing is refused.
    pub fn number_of(judged: Result<(), Refusal>) -> u8
        ensures { result ≡ number_given judged }
    {
        match judged {
            Ok(()) => 0,
            Err(r) => r.number,
        }
    }

    // What is judged, from its number.
    fn judged_by(number: u8) -> Result<(), Refusal>
        ensures { result ≡ judged_by number }
    {
        if number == 0 {
            Ok(())
        } else {
            Err(Refusal::of(number))
        }
    }

    // Of two numbers the one that is judged first, where 0 and what is no number of the table count as none.
    fn earlier_number(a: u8, b: u8) -> u8
        ensures { result ≡ earlier a b }
    {
        if (a == 0) & (b == 0) {
            return 0;
        }
        let order = [
            Refusal::SIZE,
            Refusal::NUMBER,
            Refusal::STEPS,
            Refusal::CHANNELS,
            Refusal::SHAPE,
            Refusal::WITHDRAWN,
            Refusal::EMPTY,
            Refusal::TOO_LONG,
            Refusal::TOO_WIDE,
            Refusal::EXEC_EXCEEDS_HORIZON,
            Refusal::LEN_MISMATCH,
            Refusal::WIDTH,
            Refusal::SHORT,
            Refusal::NOT_FINITE,
            Refusal::COMPUTED,
            Refusal::LEFTOVER,
        ];
        for n in order {
            if (a == n) | (b == n) {
                return n;
            }
        }
        0
    }

    // Of two refusals the one that is judged first, where a number that is none of the table counts as no refusal.
    pub fn earlier(one: Result<(), Refusal>, other: Result<(), Refusal>) -> Result<(), Refusal>
        ensures { result ≡ judged_by (earlier (number_given one) (number_given other)) }
    {
        let a = Refusal::number_of(one);
        let b = Refusal::number_of(other);
        Refusal::judged_by(Refusal::earlier_number(a, b))
    }
}
