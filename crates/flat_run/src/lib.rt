// The replay of a flat combiner file.
#![tactic(auto)]

ghost use Rattle.schedule.specs.Answers.{Leaves};
ghost use Rattle.flat_run.specs.Run.{rest_of_file};

use flat::state;
use schedule::answer::Answer;
use schedule::{answer, stepped};

// The rest of a flat combiner file from a place on: a machine made of its parameters, then its steps counted, the room tested, and run.
pub fn rest(file: &[u8], from: usize, clients: u8, log: &mut [u8], image: &mut [u8]) -> Answer
    ensures { Leaves (rest_of_file file.now from clients log.old image.old) result log.new image.new }
{
    let made = state::fresh(clients);
    match made.verdict {
        Ok(()) => stepped::rest(file, from, made.state, log, image),
        Err(why) => answer::of_refusal(why, 0),
    }
}
