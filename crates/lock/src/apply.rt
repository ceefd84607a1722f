// The shift lock as a machine whose steps are applied in place.
ghost use Rattle.lock.specs.Running.{runner};
ghost use Rattle.lock.specs.Single.{own};
ghost use Rattle.lock.specs.Sound as test;

use super::entry::Entry;
use super::state::State;
use super::{entry, sound, state};
use machine::refusal::Refusal;
use schedule::kinds::Kind;
use schedule::read::Spelled;
use schedule::stepped::Stepped;
use schedule::steps::{LockStep, Step};

impl Stepped for State {
    type Own = LockStep;

    ghost runner = { runner };

    ghost state = { λ s. s };

    ghost step = { λ x. x };

    ghost own_of = { own };

    ghost sound = { test.sound };

    fn kind() -> Kind {
        Kind::Lock
    }

    fn own(x: Step) -> Option<LockStep> {
        match x {
            Step::Lock(own) => Some(own),
            _ => None,
        }
    }

    #[inline(always)]
    fn tagged(tag: u8, numbers: &[u8]) -> LockStep {
        <LockStep as Spelled>::tagged(tag, numbers)
    }

    #[inline(always)]
    fn size(x: LockStep) -> usize {
        x.size()
    }

    fn is_sound(&self) -> bool {
        sound::is_sound(*self)
    }

    #[inline(always)]
    fn apply(&mut self, x: LockStep, log: &mut [u8], at: usize) -> Result<usize, Refusal> {
        match x {
            LockStep::ExcStart => {
                self.exc_start()?;
                Ok(at)
            }
            LockStep::ExcCheckCount => {
                self.exc_check_count()?;
                Ok(at)
            }
            LockStep::ExcFinish => {
                let t = self.head.t;
                self.exc_finish()?;
                Ok(entry::put_entry(log, at, Entry::Withdrawn { t }))
            }
            LockStep::ExcRelease { t } => {
                self.exc_release(t)?;
                Ok(at)
            }
            LockStep::SharedStart { r } => {
                self.shared_start(r)?;
                Ok(at)
            }
            LockStep::SharedFinish { r } => {
                self.shared_finish(r)?;
                let t = self.head.t;
                Ok(entry::put_entry(log, at, Entry::Granted { r, t }))
            }
            LockStep::SharedRelease { r, t } => {
                self.shared_release(r, t)?;
                Ok(at)
            }
        }
    }

    fn image(&self, out: &mut [u8]) -> usize {
        state::image(*self, out)
    }

    fn carries() {}

    fn tells(&self) {}
}
