// The replay of a flag file.
#![tactic(auto)]

ghost use Rattle.schedule.specs.Answers.{Leaves};
ghost use Rattle.flag_run.specs.Run.{rest_of_file};

use flag::state;
use schedule::answer::Answer;
use schedule::{answer, stepped};

// The rest of a flag file from a place on: a machine made of its parameters, its steps counted, the room tested, then run.
pub fn rest(
    file: &[u8],
    from: usize,
    threads: u8,
    value: bool,
    log: &mut [u8],
    image: &mut [u8],
) -> Answer
    ensures { Leaves (rest_of_file file.now from threads value log.old image.old) result log.new image.new }
{
    let made = state::fresh(threads, value);
    match made.verdict {
        Err(why) => answer::of_refusal(why, 0),
        Ok(()) => stepped::rest(file, from, made.state, log, image),
    }
}
