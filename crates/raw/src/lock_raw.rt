// The shift lock: t, width, cursor, locked, stored, pending, guard, then each cell's count, pending and guards.
ghost use Rattle.std.specs.Prelude.{◌≡◌, ◌+◌, ◌*◌, ◌≤◌};
ghost use Rattle.rows.specs.Stores.{Laid};
ghost use Rattle.schedule.specs.Limits as limit;
ghost use Rattle.raw.specs.Raw.{cell_at, cells_from, head_from, lock_from, head_bytes, lock_bytes};

use super::flags;
use lock::state::{Cell, CellLayout, Head, State};
use rows::laid;
use schedule::limits;

pub const HEAD: usize = 10;

pub const LENGTH: usize = HEAD + 3 * limits::WIDTH;

pub fn lock_from(raw: &[u8]) -> State
    ensures { result ≡ lock_from raw.now }
{
    State {
        head: head_from(raw),
        cells: cells_from(raw),
    }
}

fn head_from(raw: &[u8]) -> Head
    ensures { result ≡ head_from raw.now }
{
    Head {
        t: rows::get(raw, 0),
        width: rows::get(raw, 4),
        cursor: rows::get(raw, 5),
        locked: flags::set_at(raw, 6),
        stored: flags::set_at(raw, 7),
        pending: flags::set_at(raw, 8),
        guard: flags::set_at(raw, 9),
    }
}

fn cells_from(raw: &[u8]) -> [Cell; limits::WIDTH]
    ensures { result ≡ cells_from raw.now }
{
    std::array::from_fn(|k| cell_at(raw, HEAD + 3 * k))
}

fn cell_at(raw: &[u8], at: usize) -> Cell
    requires { at ≤ 10 + 3 * limit.width }
    ensures { result ≡ cell_at raw.now at }
{
    Cell {
        count: rows::get(raw, at),
        pending: rows::get(raw, at + 1),
        guards: rows::get(raw, at + 2),
    }
}

pub fn put_lock(raw: &mut [u8], s: State) -> usize
    ensures { Laid raw.old 0 (lock_bytes s) result raw.new }
{
    if raw.len() < LENGTH {
        return 0;
    }
    let at = put_head(raw, s.head);
    laid::put_all::<CellLayout, Cell>(raw, at, &s.cells)
}

fn put_head(raw: &mut [u8], h: Head) -> usize
    ensures { Laid raw.old 0 (head_bytes h) result raw.new }
{
    let [t0, t1, t2, t3] = h.t.to_be_bytes();
    let locked = u8::from(h.locked);
    let stored = u8::from(h.stored);
    let pending = u8::from(h.pending);
    let guard = u8::from(h.guard);
    rows::put_bytes(
        raw,
        0,
        &[
            t0, t1, t2, t3, h.width, h.cursor, locked, stored, pending, guard,
        ],
    )
}
