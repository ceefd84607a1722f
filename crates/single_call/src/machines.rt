// What a machine with raw states is.
ghost use Rattle.std.specs.Prelude.{◌≡◌, ℕ, length};
ghost use Rattle.machine.specs.Single.{told_by};
ghost use Rattle.schedule.specs.declared.steps.Step.{Step};
ghost use Rattle.single_call.specs.Call.{RawStepper, Answers};

use machine::single::Answer;
use schedule::steps::Step;

// A machine's state that a program makes up byte by byte.
pub(super) trait RawMachine: Copy {
    // how many bytes a raw state has
    ghost LENGTH: { ℕ };

    const LENGTH: usize;

    ghost raw: { RawStepper Self Step };

    fn read(bytes: &[u8]) -> Self
        ensures { result ≡ raw.from bytes.now };

    fn single(self, x: Step, log: &mut [u8]) -> Answer<Self>
        ensures { Answers raw self x log.old (told_by result) log.new };

    // The state's bytes in place of a raw state's.
    fn write(self, bytes: &mut [u8])
        requires { length bytes.old ≡ raw.long }
        ensures { bytes.new ≡ raw.bytes self };

    ghost whole: { LENGTH ≡ raw.long };
}
