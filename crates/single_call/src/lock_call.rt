// The shift lock on its raw states.
ghost use Rattle.std.specs.Prelude.{refl};
ghost use Rattle.raw.specs.Raw.{lock_long};
ghost use Rattle.single_call.specs.Call.{lock_raw};

use super::machines::RawMachine;
use lock::single;
use lock::state::State;
use machine::single::Answer;
use raw::lock_raw;
use schedule::steps::Step;

impl RawMachine for State {
    ghost LENGTH = { lock_long };

    const LENGTH: usize = lock_raw::LENGTH;

    ghost raw = { lock_raw };

    fn read(bytes: &[u8]) -> State {
        lock_raw::lock_from(bytes)
    }

    fn single(self, x: Step, log: &mut [u8]) -> Answer<State> {
        single::single(self, x, log)
    }

    fn write(self, bytes: &mut [u8]) {
        lock_raw::put_lock(bytes, self);
    }

    ghost whole = { refl };
}
