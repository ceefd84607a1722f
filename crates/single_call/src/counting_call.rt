// The counting machine on its raw states.
ghost use Rattle.std.specs.Prelude.{refl};
ghost use Rattle.raw.specs.Raw.{counting_long};
ghost use Rattle.single_call.specs.Call.{counting_raw};

use super::machines::RawMachine;
use counting::single;
use counting::state::State;
use machine::single::Answer;
use raw::counting_raw;
use schedule::steps::Step;

impl RawMachine for State {
    ghost LENGTH = { counting_long };

    const LENGTH: usize = counting_raw::LENGTH;

    ghost raw = { counting_raw };

    fn read(bytes: &[u8]) -> State {
        counting_raw::counting_from(bytes)
    }

    fn single(self, x: Step, log: &mut [u8]) -> Answer<State> {
        single::single(self, x, log)
    }

    fn write(self, bytes: &mut [u8]) {
        counting_raw::put_counting(bytes, self);
    }

    ghost whole = { refl };
}
