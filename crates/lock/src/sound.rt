// The test of a made-up state: one walk over the cells.
ghost use Rattle.std.specs.Prelude.{◌≡◌};
ghost use Rattle.rows.specs.Walk.{every};
ghost use Rattle.lock.specs.Sound.{sound, head_sound, writer_sound, cell_sound, must_be_clear};

use super::state::{Cell, Head, State};
use schedule::limits;

pub fn is_sound(s: State) -> bool
    ensures { result ≡ sound s }
{
    head_sound(s.head) && cells_sound(s)
}

fn cells_sound(s: State) -> bool
    ensures { result ≡ every (cell_sound s.head) 0 s.cells }
{
    s.cells
        .iter()
        .enumerate()
        .all(|(i, c)| cell_sound(s.head, i, *c))
}

// The width is in its limits, and the writer where it can be.
fn head_sound(h: Head) -> bool
    ensures { result ≡ head_sound h }
{
    h.width != 0 && usize::from(h.width) <= limits::WIDTH && writer_sound(h)
}

// The writer holds the guard, checks the cells, or is away.
fn writer_sound(h: Head) -> bool
    ensures { result ≡ writer_sound h }
{
    if h.guard {
        !h.pending && !h.stored && h.t == 0 && h.cursor == 0 && h.locked
    } else if h.pending {
        h.stored && h.cursor <= h.width && h.locked
    } else {
        h.stored && !h.locked && h.cursor == 0
    }
}

// No reader guard stands where the writer has checked, nor anywhere while it holds the guard.
fn must_be_clear(h: Head, i: usize) -> bool
    ensures { result ≡ must_be_clear h i }
{
    h.guard || h.pending && i < usize::from(h.cursor)
}

// A cell in use counts its pending readers and its guards; one that is not in use is zero.
fn cell_sound(h: Head, i: usize, c: Cell) -> bool
    ensures { result ≡ cell_sound h i c }
{
    if i < usize::from(h.width) {
        c.pending.checked_add(c.guards) == Some(c.count) && (c.guards == 0 || !must_be_clear(h, i))
    } else {
        c == Cell::default()
    }
}
