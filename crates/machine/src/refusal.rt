// Why something is refused, and the number that files, logs and programs in other languages know each reason by. specs/Codes.antt has the same numbers
// with what each means.
ghost use Rattle.std.specs.Prelude.{◌≡◌};
ghost use Rattle.machine.specs.Refusals.{number, verdict_code};

#[derive(Clone, Copy, PartialEq, Eq)]
pub enum Refusal {
    WrongLength = 1,
    Version = 2,
    Body = 3,
    Kind = 4,
    Parameter = 5,
    Malformed = 6,
    Surplus = 7,
    Room = 8,
    Unsound = 10,
    Outside = 11,
    Phase = 12,
    Cursor = 13,
    Slot = 14,
    Element = 15,
    Count = 16,
    Missing = 17,
    Full = 18,
}

// The number of what everything accepted is told by.
pub const ACCEPTED: u8 = 0;

impl Refusal {
    pub fn code(self) -> u8
        ensures { result ≡ number self }
    {
        self as u8
    }
}

// The number of a verdict: that of the refusal, or of nothing refused.
pub fn code_of(verdict: Result<(), Refusal>) -> u8
    ensures { result ≡ verdict_code verdict }
{
    match verdict {
        Ok(()) => ACCEPTED,
        Err(why) => why.code(),
    }
}
