// The readers' transitions on one cell, which the step applied in place calls. The tests on the head come first, in functions of
// their own: they say whether there is such a cell.
ghost use Rattle.std.specs.Prelude.{◌≡◌};
ghost use Rattle.machine.specs.Check.{first};
ghost use Rattle.machine.specs.Move.{as_moved};
ghost use Rattle.machine.specs.Refusals.{verdict_code};
ghost use Rattle.lock.specs.Lock.{shared_finish_tests};
ghost use Rattle.lock.specs.Moved.{started_cell, finished_cell, released_cell};

use super::state::{Cell, Head};
use machine::refusal::Refusal;
use machine::within;

// The tests of shared_finish on the head: the lock test stands here, and not at shared_start.
pub fn may_finish(h: Head, r: u8) -> Result<(), Refusal>
    ensures { verdict_code result ≡ first (shared_finish_tests h r) }
{
    within::inside(h.width, r)?;
    if h.locked {
        return Err(Refusal::Phase);
    }
    Ok(())
}

// One reader more announces itself, locked or not.
#[tactic(auto, using(std::proofs::lemmas::Bool::Decides::nat_tests))]
pub fn shared_start(c: Cell) -> Result<Cell, Refusal>
    ensures { as_moved c result ≡ started_cell c }
{
    let count = c.count.checked_add(1).ok_or(Refusal::Full)?;
    let pending = c.pending.checked_add(1).ok_or(Refusal::Unsound)?;
    Ok(Cell {
        count,
        pending,
        ..c
    })
}

// A pending reader gets its guard.
#[tactic(auto, using(std::proofs::lemmas::Bool::Decides::nat_tests))]
pub fn shared_finish(c: Cell) -> Result<Cell, Refusal>
    ensures { as_moved c result ≡ finished_cell c }
{
    let pending = c.pending.checked_sub(1).ok_or(Refusal::Missing)?;
    let guards = c.guards.checked_add(1).ok_or(Refusal::Unsound)?;
    Ok(Cell {
        pending,
        guards,
        ..c
    })
}

// A guard that carries t is given back: all guards carry the record in store.
#[tactic(auto, using(std::proofs::lemmas::Bool::Decides::nat_tests))]
pub fn shared_release(h: Head, c: Cell, t: u32) -> Result<Cell, Refusal>
    ensures { as_moved c result ≡ released_cell h c t }
{
    let guards = c.guards.checked_sub(1).ok_or(Refusal::Missing)?;
    if !h.stored || t != h.t {
        return Err(Refusal::Missing);
    }
    let count = c.count.checked_sub(1).ok_or(Refusal::Unsound)?;
    Ok(Cell { count, guards, ..c })
}
