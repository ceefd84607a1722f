// The writer's transitions on the head, which the step applied in place calls. Each makes its tests in the order of their codes and
// answers the head after it, or the reason that the first test gives that fails.
ghost use Rattle.std.specs.Prelude.{◌≡◌};
ghost use Rattle.machine.specs.Check.{first};
ghost use Rattle.machine.specs.Move.{as_moved};
ghost use Rattle.machine.specs.Refusals.{verdict_code};
ghost use Rattle.lock.specs.Lock.{exc_check_count_tests};
ghost use Rattle.lock.specs.Moved.{started_head, checked_head, finished_head, released_head};

use super::state::{Cell, Head};
use machine::refusal::Refusal;

pub fn exc_start(h: Head) -> Result<Head, Refusal>
    ensures { as_moved h result ≡ started_head h }
{
    if h.locked {
        return Err(Refusal::Phase);
    }
    Ok(Head {
        cursor: 0,
        locked: true,
        pending: true,
        ..h
    })
}

// The tests of exc_check_count on the head: which cell is next is known once they hold.
#[tactic(auto, using(std::proofs::lemmas::Bool::Decides::nat_tests))]
pub fn may_check(h: Head) -> Result<(), Refusal>
    ensures { verdict_code result ≡ first (exc_check_count_tests h) }
{
    if !h.pending {
        return Err(Refusal::Phase);
    }
    if h.width <= h.cursor {
        return Err(Refusal::Cursor);
    }
    Ok(())
}

// exc_check_count past the cell c.
#[tactic(auto, using(std::proofs::lemmas::Bool::Decides::nat_tests))]
pub fn exc_check_count(h: Head, c: Cell) -> Result<Head, Refusal>
    ensures { as_moved h result ≡ checked_head h c }
{
    if c.count != 0 {
        return Err(Refusal::Count);
    }
    let cursor = h.cursor.checked_add(1).ok_or(Refusal::Unsound)?;
    Ok(Head { cursor, ..h })
}

// exc_finish withdraws the record.
#[tactic(auto, using(std::proofs::lemmas::Bool::Decides::nat_tests))]
pub fn exc_finish(h: Head) -> Result<Head, Refusal>
    ensures { as_moved h result ≡ finished_head h }
{
    if !h.pending {
        return Err(Refusal::Phase);
    }
    if h.cursor != h.width {
        return Err(Refusal::Cursor);
    }
    Ok(Head {
        t: 0,
        cursor: 0,
        stored: false,
        pending: false,
        guard: true,
        ..h
    })
}

// exc_release puts a record in store.
pub fn exc_release(h: Head, t: u32) -> Result<Head, Refusal>
    ensures { as_moved h result ≡ released_head h t }
{
    if !h.guard {
        return Err(Refusal::Phase);
    }
    Ok(Head {
        t,
        locked: false,
        stored: true,
        guard: false,
        ..h
    })
}
