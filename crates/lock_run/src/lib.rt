// The replay of a shift lock file.
#![tactic(auto)]

ghost use Rattle.schedule.specs.Answers.{Leaves};
ghost use Rattle.lock_run.specs.Run.{rest_of_file};

use lock::state;
use schedule::answer::Answer;
use schedule::{answer, stepped};

// The rest of a shift lock file from a place on: a machine made of its parameters, its steps counted, the room tested, then run.
pub fn rest(file: &[u8], from: usize, width: u8, t: u32, log: &mut [u8], image: &mut [u8]) -> Answer
    ensures { Leaves (rest_of_file file.now from width t log.old image.old) result log.new image.new }
{
    let made = state::fresh(width, t);
    match made.verdict {
        Ok(()) => stepped::rest(file, from, made.state, log, image),
        Err(why) => answer::of_refusal(why, 0),
    }
}
