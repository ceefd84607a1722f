// Each step on the state, which changes in place behind the last test: what is refused leaves it as it was. On a state that is not sound a step may
// be refused as such.
ghost use Rattle.std.specs.Prelude.{◌≡◌, true};
ghost use Rattle.schedule.specs.declared.steps.LockStep.TheVariants.{ExcStart, ExcCheckCount, ExcFinish, ExcRelease, SharedStart, SharedFinish, SharedRelease};
ghost use Rattle.lock.specs.Sound as test;
ghost use Rattle.lock.specs.Running.{Steps};

use super::state::State;
use super::{reader, writer};
use machine::refusal::Refusal;
use machine::within;
use schedule::limits;

impl State {
    // ---- the writer's steps

    #[inline]
    pub(super) fn exc_start(&mut self) -> Result<(), Refusal>
        ensures { Steps self.old ExcStart result self.new }
    {
        self.head = writer::exc_start(self.head)?;
        Ok(())
    }

    #[inline]
    pub(super) fn exc_check_count(&mut self) -> Result<(), Refusal>
        ensures { test.sound self.old ≡ true → Steps self.old ExcCheckCount result self.new }
    {
        writer::may_check(self.head)?;
        let i = within::place::<{ limits::WIDTH }>(self.head.cursor)?;
        self.head = writer::exc_check_count(self.head, self.cells[i])?;
        Ok(())
    }

    #[inline]
    pub(super) fn exc_finish(&mut self) -> Result<(), Refusal>
        ensures { Steps self.old ExcFinish result self.new }
    {
        self.head = writer::exc_finish(self.head)?;
        Ok(())
    }

    #[inline]
    pub(super) fn exc_release(&mut self, t: u32) -> Result<(), Refusal>
        ensures { Steps self.old (ExcRelease t) result self.new }
    {
        self.head = writer::exc_release(self.head, t)?;
        Ok(())
    }

    // ---- the readers' steps

    #[inline]
    pub(super) fn shared_start(&mut self, r: u8) -> Result<(), Refusal>
        ensures { test.sound self.old ≡ true → Steps self.old (SharedStart r) result self.new }
    {
        within::inside(self.head.width, r)?;
        let i = within::place::<{ limits::WIDTH }>(r)?;
        self.cells[i] = reader::shared_start(self.cells[i])?;
        Ok(())
    }

    #[inline]
    pub(super) fn shared_finish(&mut self, r: u8) -> Result<(), Refusal>
        ensures { test.sound self.old ≡ true → Steps self.old (SharedFinish r) result self.new }
    {
        reader::may_finish(self.head, r)?;
        let i = within::place::<{ limits::WIDTH }>(r)?;
        self.cells[i] = reader::shared_finish(self.cells[i])?;
        Ok(())
    }

    #[inline]
    pub(super) fn shared_release(&mut self, r: u8, t: u32) -> Result<(), Refusal>
        ensures { test.sound self.old ≡ true → Steps self.old (SharedRelease r t) result self.new }
    {
        within::inside(self.head.width, r)?;
        let i = within::place::<{ limits::WIDTH }>(r)?;
        self.cells[i] = reader::shared_release(self.head, self.cells[i], t)?;
        Ok(())
    }
}
