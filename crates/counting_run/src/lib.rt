// The replay of a counting file.
#![tactic(auto)]

ghost use Rattle.schedule.specs.Answers.{Leaves};
ghost use Rattle.counting_run.specs.Run.{rest_of_file};

use counting::state;
use schedule::answer::Answer;
use schedule::stepped;

// The rest of a counting file from a place on: its steps counted, the room tested, then run from a fresh machine.
pub fn rest(file: &[u8], from: usize, log: &mut [u8], image: &mut [u8]) -> Answer
    ensures { Leaves (rest_of_file file.now from log.old image.old) result log.new image.new }
{
    stepped::rest(file, from, state::fresh(), log, image)
}
