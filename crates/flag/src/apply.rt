// A step applied to a state in place.
ghost use Rattle.flag.specs.Moved.{Indexed};
ghost use Rattle.flag.specs.Running.{runner};
ghost use Rattle.flag.specs.Single.{own};
ghost use Rattle.flag.specs.Sound.{sound};

use super::entry::Entry;
use super::state::State;
use super::{entry, moves, sound, state};
use machine::refusal::Refusal;
use machine::within;
use schedule::kinds::Kind;
use schedule::limits;
use schedule::read::Spelled;
use schedule::stepped::Stepped;
use schedule::steps::{FlagStep, Step};

impl Stepped for State {
    type Own = FlagStep;

    ghost runner = { runner };

    ghost state = { λ s. s };

    ghost step = { λ x. x };

    ghost own_of = { own };

    ghost sound = { sound };

    fn kind() -> Kind {
        Kind::Flag
    }

    fn own(x: Step) -> Option<FlagStep> {
        match x {
            Step::Flag(own) => Some(own),
            _ => None,
        }
    }

    #[inline(always)]
    fn tagged(tag: u8, numbers: &[u8]) -> FlagStep {
        <FlagStep as Spelled>::tagged(tag, numbers)
    }

    #[inline(always)]
    fn size(x: FlagStep) -> usize {
        x.size()
    }

    fn is_sound(&self) -> bool {
        sound::is_sound(*self)
    }

    #[inline(always)]
    fn apply(&mut self, x: FlagStep, log: &mut [u8], at: usize) -> Result<usize, Refusal> {
        match x {
            FlagStep::Begin { k } => {
                let i = self.index_of(k)?;
                moves::may_begin(self.places[i])?;
                self.places[i] = 1;
                Ok(at)
            }
            FlagStep::Move { k } => {
                let i = self.index_of(k)?;
                let place = self.places[i];
                moves::may_move(place)?;
                let went = moves::go_on(place, self.pending, self.value);
                let next = entry::put_flips(log, at, went.flips, self.places, k);
                self.places[i] = went.place;
                self.pending = went.pending;
                self.value = went.value;
                Ok(next)
            }
            FlagStep::Read { k } => {
                let i = self.index_of(k)?;
                moves::may_begin(self.places[i])?;
                let value = self.value;
                Ok(entry::put_entry(log, at, Entry::Saw { k, value }))
            }
        }
    }

    fn image(&self, out: &mut [u8]) -> usize {
        state::image(*self, out)
    }

    fn carries() {}

    fn tells(&self) {}
}

impl State {
    // The index of thread k in the row.
    #[inline]
    fn index_of(&self, k: u8) -> Result<usize, Refusal>
        ensures { Indexed self.now k result }
    {
        within::inside(self.threads, k)?;
        within::place::<{ limits::THREADS }>(k)
    }
}
