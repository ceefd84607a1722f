// The replayer: any bytes, any two buffers, one answer.
#![tactic(auto)]

ghost use Rattle.schedule.specs.Answers.{Leaves};
ghost use Rattle.replayer.specs.Replay.{replay_of, opened_as, input_of};

use machine::refusal::Refusal;
use schedule::answer::Answer;
use schedule::steps::Params;
use schedule::{answer, front, limits};

// version, two bytes of length, and the longest body
pub const LARGEST: usize = limits::BODY + 3;

// The answer to a file, with the log of its accepted steps and the image of the state that they led to.
pub fn replay(file: &[u8], log: &mut [u8], image: &mut [u8]) -> Answer
    ensures { Leaves (replay_of file.now log.old image.old) result log.new image.new }
{
    match front::front(file) {
        Ok(opened) => behind_front(file, opened.params, opened.from, log, image),
        Err(fault) => Answer::from(fault),
    }
}

// The kind's own loop, on the rest of the file.
fn behind_front(
    file: &[u8],
    params: Params,
    from: usize,
    log: &mut [u8],
    image: &mut [u8],
) -> Answer
    ensures { Leaves (opened_as file.now params from log.old image.old) result log.new image.new }
{
    match params {
        Params::Flat { clients } => flat_run::rest(file, from, clients, log, image),
        Params::Lock { width, t } => lock_run::rest(file, from, width, t, log, image),
        Params::Counting => counting_run::rest(file, from, log, image),
        Params::Flag { threads, value } => flag_run::rest(file, from, threads, value, log, image),
    }
}

// The answer to an input that may be longer than any file: over LARGEST bytes the body is over its limit, whatever else is wrong.
pub fn replay_input(input: &[u8], log: &mut [u8], image: &mut [u8]) -> Answer
    ensures { Leaves (input_of input.now log.old image.old) result log.new image.new }
{
    if LARGEST < input.len() {
        return answer::of_refusal(Refusal::Body, 0);
    }
    replay(input, log, image)
}
