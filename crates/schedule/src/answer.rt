// The answer to a whole file: code and place, and how much was written to each buffer.
ghost use Rattle.std.specs.Prelude.{◌≡◌};
ghost use Rattle.machine.specs.Refusals.{number};
ghost use Rattle.schedule.specs.Answers.{refused_as, refused_for};

use super::front::Fault;
use machine::refusal::Refusal;

// In numbers, as the calls from C and the printed lines have it. The place is that of the step refused, or the number of steps where none was.
#[derive(Clone, Copy)]
pub struct Answer {
    pub place: usize,
    pub logged: usize,
    pub imaged: usize,
    pub code: u8,
}

// Nothing was written.
pub fn refused(code: u8, place: usize) -> Answer
    ensures { result ≡ refused_as code place }
{
    Answer {
        place,
        logged: 0,
        imaged: 0,
        code,
    }
}

// Nothing was written, for this reason.
pub fn of_refusal(why: Refusal, place: usize) -> Answer
    ensures { result ≡ refused_as (number why) place }
{
    refused(why.code(), place)
}

// Nothing was written, for the fault that a file has.
impl From<Fault> for Answer {
    ghost from_gives = { λ fault answer. answer ≡ refused_for fault };

    fn from(fault: Fault) -> Answer {
        of_refusal(fault.refusal(), fault.place())
    }
}
