// A step applied to a state in place.
ghost use Rattle.counting.specs.Running.{runner};
ghost use Rattle.counting.specs.Single.{own};
ghost use Rattle.counting.specs.Sound.{sound};

use super::entry::Entry;
use super::state::State;
use super::{entry, sound, state};
use machine::refusal::Refusal;
use schedule::kinds::Kind;
use schedule::read::Spelled;
use schedule::stepped::Stepped;
use schedule::steps::{CountingStep, Step};

impl Stepped for State {
    type Own = CountingStep;

    ghost runner = { runner };

    ghost state = { λ s. s };

    ghost step = { λ x. x };

    ghost own_of = { own };

    ghost sound = { sound };

    fn kind() -> Kind {
        Kind::Counting
    }

    fn own(x: Step) -> Option<CountingStep> {
        match x {
            Step::Counting(own) => Some(own),
            _ => None,
        }
    }

    #[inline(always)]
    fn tagged(tag: u8, numbers: &[u8]) -> CountingStep {
        <CountingStep as Spelled>::tagged(tag, numbers)
    }

    #[inline(always)]
    fn size(x: CountingStep) -> usize {
        x.size()
    }

    fn is_sound(&self) -> bool {
        sound::is_sound(*self)
    }

    #[inline(always)]
    fn apply(&mut self, x: CountingStep, log: &mut [u8], at: usize) -> Result<usize, Refusal> {
        match x {
            CountingStep::WriteableToReadable { t } => {
                self.writeable_to_readable(t)?;
                Ok(at)
            }
            CountingStep::ReadableToWriteable => {
                let t = self.t;
                self.readable_to_writeable()?;
                Ok(entry::put_entry(log, at, Entry::Withdrawn { t }))
            }
            CountingStep::NewRef => {
                let t = self.t;
                self.new_ref()?;
                Ok(entry::put_entry(log, at, Entry::Granted { t }))
            }
            CountingStep::DeleteRef { t } => {
                self.delete_ref(t)?;
                Ok(at)
            }
        }
    }

    fn image(&self, out: &mut [u8]) -> usize {
        state::image(*self, out)
    }

    fn carries() {}

    fn tells(&self) {}
}
