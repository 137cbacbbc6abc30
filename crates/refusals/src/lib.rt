// Why a call turns its input down. What numbers and places mean is in specs/.
#![tactic(auto)]

ghost use Rattle.std.specs.Prelude.{◌≡◌};
ghost use Rattle.refusals.specs.Refusals.{paper};

// Why a call turns its input down. A number is the refusal's place.
#[derive(Clone, Copy)]
pub enum Refusal {
    Form(usize),
    Count(usize),
    Range(usize),
    Order(usize),
    Degree(usize),
    Buffer,
    Start(usize),
    Precision,
    Option,
    Scaling,
    Factor,
    Value(usize),
    Length(usize),
    RunText(usize),
    Bit(usize),
    Lifting,
    Shift(usize),
    Positions,
    NoCodeword,
    Blank,
    Advance,
    Allowance,
}

// The paper's number of a refusal, and its place.
#[derive(Drop)]
pub struct Numbered {
    pub number: u8,
    pub place: usize,
}

impl Refusal {
    pub fn numbered(self) -> Numbered
        ensures { result ≡ paper self }
    {
        match self {
            Refusal::Form(place) => Numbered { number: 1, place },
            Refusal::Count(place) => Numbered { number: 2, place },
            Refusal::Range(place) => Numbered { number: 3, place },
            Refusal::Order(place) => Numbered { number: 4, place },
            Refusal::Degree(place) => Numbered { number: 5, place },
            Refusal::Buffer => Numbered {
                number: 6,
                place: 0,
            },
            Refusal::Start(place) => Numbered { number: 7, place },
            Refusal::Precision => Numbered {
                number: 8,
                place: 0,
            },
            Refusal::Option => Numbered {
                number: 9,
                place: 0,
            },
            Refusal::Scaling => Numbered {
                number: 10,
                place: 0,
            },
            Refusal::Factor => Numbered {
                number: 11,
                place: 0,
            },
            Refusal::Value(place) => Numbered { number: 12, place },
            Refusal::Length(place) => Numbered { number: 13, place },
            Refusal::RunText(place) => Numbered { number: 14, place },
            Refusal::Bit(place) => Numbered { number: 15, place },
            Refusal::Lifting => Numbered {
                number: 16,
                place: 0,
            },
            Refusal::Shift(place) => Numbered { number: 17, place },
            Refusal::Positions => Numbered {
                number: 18,
                place: 0,
            },
            Refusal::NoCodeword => Numbered {
                number: 19,
                place: 0,
            },
            Refusal::Blank => Numbered {
                number: 20,
                place: 0,
            },
            Refusal::Advance => Numbered {
                number: 21,
                place: 0,
            },
            Refusal::Allowance => Numbered {
                number: 22,
                place: 0,
            },
        }
    }
}
