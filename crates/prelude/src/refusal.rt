// Why a call is turned down: the causes by name, and a refusal, which is a cause and a place (docs/FORMAT.md, "Refusals").

ghost use Rattle.std.specs.Prelude.{◌≡◌};
ghost use Rattle.prelude.specs.Causes.{number_of};

// A cause, in the order of their numbers, which are what callers outside this repository get.
#[derive(Clone, Copy, PartialEq, Eq)]
pub enum Cause {
    TooLong = 1,
    CutShort = 2,
    Misplaced = 3,
    WrongLength = 4,
    OneTooMany = 5,
    OutOfRange = 6,
    IllSorted = 7,
    Repeated = 8,
    NoTotal = 9,
    ShortBuffer = 10,
    NoAnswer = 11,
    IllLaid = 12,
    NotThere = 13,
    PastLimit = 14,
    NoWalk = 15,
    Refilled = 16,
    WrongSizes = 17,
    IllBundled = 18,
    OverLimit = 19,
}

// A call that is turned down: why, and the place that shows it.
#[derive(Clone, Copy, PartialEq, Eq)]
pub struct Refusal {
    pub cause: Cause,
    pub place: usize,
}

impl Cause {
    // The number that stands for the cause outside.
    pub fn number(self) -> u8
        ensures { result ≡ number_of self }
    {
        self as u8
    }

    // The refusal for this cause at a place.
    pub fn at(self, place: usize) -> Refusal
        ensures { result ≡ record { cause = self; place = place } }
    {
        Refusal { cause: self, place }
    }
}
