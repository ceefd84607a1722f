// One step on any state: a step of another kind is 6, a log buffer too short 8, a state that is not sound 10, then the machine's own tests.
ghost use Rattle.machine.specs.Single.{told_by};
ghost use Rattle.counting.specs.Single.{Singled};

use super::state::State;
use machine::single::Answer;
use schedule::stepped;
use schedule::steps::Step;

// The state after the step and the entry's length, or the state as it was.
pub fn single(s: State, x: Step, log: &mut [u8]) -> Answer<State>
    ensures { Singled s x log.old (told_by result) log.new }
{
    stepped::single(s, x, log)
}
