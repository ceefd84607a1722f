// The flag on its raw states.
ghost use Rattle.std.specs.Prelude.{refl};
ghost use Rattle.raw.specs.Raw.{flag_long};
ghost use Rattle.single_call.specs.Call.{flag_raw};

use super::machines::RawMachine;
use flag::single;
use flag::state::State;
use machine::single::Answer;
use raw::flag_raw;
use schedule::steps::Step;

impl RawMachine for State {
    ghost LENGTH = { flag_long };

    const LENGTH: usize = flag_raw::LENGTH;

    ghost raw = { flag_raw };

    fn read(bytes: &[u8]) -> State {
        flag_raw::flag_from(bytes)
    }

    fn single(self, x: Step, log: &mut [u8]) -> Answer<State> {
        single::single(self, x, log)
    }

    fn write(self, bytes: &mut [u8]) {
        flag_raw::put_flag(bytes, self);
    }

    ghost whole = { refl };
}
