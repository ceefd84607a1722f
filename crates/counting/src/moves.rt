// The four transitions, each written once, on a state in place: it makes its tests in the order of their codes and moves the state behind the last of them,
// or answers why the first test that fails refuses it, and the state stays. A state whose counters the step can't move is not sound. Beside each stands
// the same of a state by value, for callers who keep the one before.
ghost use Rattle.std.specs.Prelude.{◌≡◌};
ghost use Rattle.machine.specs.Move.{as_moved, in_place};
ghost use Rattle.schedule.specs.declared.steps.CountingStep.TheVariants.{WriteableToReadable, ReadableToWriteable, NewRef, DeleteRef};
ghost use Rattle.counting.specs.Moved.{moved};

use super::state::State;
use machine::refusal::Refusal;
use schedule::limits;

impl State {
    #[inline(always)]
    pub(super) fn writeable_to_readable(&mut self, t: u32) -> Result<(), Refusal>
        ensures { in_place result self.new ≡ moved self.old (WriteableToReadable t) }
    {
        if self.present {
            return Err(Refusal::Phase);
        }
        self.t = t;
        self.count = 0;
        self.present = true;
        Ok(())
    }

    #[inline(always)]
    #[tactic(auto, using(std::proofs::lemmas::Bool::Decides::nat_tests))]
    pub(super) fn readable_to_writeable(&mut self) -> Result<(), Refusal>
        ensures { in_place result self.new ≡ moved self.old ReadableToWriteable }
    {
        if !self.present {
            return Err(Refusal::Phase);
        }
        if self.count != 0 {
            return Err(Refusal::Count);
        }
        self.t = 0;
        self.present = false;
        Ok(())
    }

    #[inline(always)]
    #[tactic(auto, using(std::proofs::lemmas::Bool::Decides::nat_tests))]
    pub(super) fn new_ref(&mut self) -> Result<(), Refusal>
        ensures { in_place result self.new ≡ moved self.old NewRef }
    {
        if !self.present {
            return Err(Refusal::Phase);
        }
        if limits::COUNTER <= self.count {
            return Err(Refusal::Full);
        }
        if limits::COUNTER <= self.refs {
            return Err(Refusal::Unsound);
        }
        self.count += 1;
        self.refs += 1;
        Ok(())
    }

    #[inline(always)]
    #[tactic(auto, using(std::proofs::lemmas::Bool::Decides::nat_tests))]
    pub(super) fn delete_ref(&mut self, t: u32) -> Result<(), Refusal>
        ensures { in_place result self.new ≡ moved self.old (DeleteRef t) }
    {
        if !self.present {
            return Err(Refusal::Phase);
        }
        let refs = self.refs.checked_sub(1).ok_or(Refusal::Missing)?;
        if t != self.t {
            return Err(Refusal::Missing);
        }
        let count = self.count.checked_sub(1).ok_or(Refusal::Unsound)?;
        self.count = count;
        self.refs = refs;
        Ok(())
    }
}

pub fn writeable_to_readable(s: State, t: u32) -> Result<State, Refusal>
    ensures { as_moved s result ≡ moved s (WriteableToReadable t) }
{
    let mut moved = s;
    moved.writeable_to_readable(t)?;
    Ok(moved)
}

pub fn readable_to_writeable(s: State) -> Result<State, Refusal>
    ensures { as_moved s result ≡ moved s ReadableToWriteable }
{
    let mut moved = s;
    moved.readable_to_writeable()?;
    Ok(moved)
}

pub fn new_ref(s: State) -> Result<State, Refusal>
    ensures { as_moved s result ≡ moved s NewRef }
{
    let mut moved = s;
    moved.new_ref()?;
    Ok(moved)
}

pub fn delete_ref(s: State, t: u32) -> Result<State, Refusal>
    ensures { as_moved s result ≡ moved s (DeleteRef t) }
{
    let mut moved = s;
    moved.delete_ref(t)?;
    Ok(moved)
}
