// The flat combiner on its raw states.
ghost use Rattle.std.specs.Prelude.{refl};
ghost use Rattle.raw.specs.Raw.{flat_long};
ghost use Rattle.single_call.specs.Call.{flat_raw};

use super::machines::RawMachine;
use flat::single;
use flat::state::State;
use machine::single::Answer;
use raw::flat_raw;
use schedule::steps::Step;

impl RawMachine for State {
    ghost LENGTH = { flat_long };

    const LENGTH: usize = flat_raw::LENGTH;

    ghost raw = { flat_raw };

    fn read(bytes: &[u8]) -> State {
        flat_raw::flat_from(bytes)
    }

    fn single(self, x: Step, log: &mut [u8]) -> Answer<State> {
        single::single(self, x, log)
    }

    fn write(self, bytes: &mut [u8]) {
        flat_raw::put_flat(bytes, self);
    }

    ghost whole = { refl };
}
