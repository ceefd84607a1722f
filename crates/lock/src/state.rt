// The state of the shift lock: fresh, and its image.
ghost use Rattle.std.specs.Prelude.{◌≡◌, refl};
ghost use Rattle.std.proofs.Common.{rules};
ghost use Rattle.rows.specs.Stores.{Laid};
ghost use Rattle.machine.specs.Made.{made_by};
ghost use Rattle.lock.specs.Lock.{fresh_of};
ghost use Rattle.lock.specs.Image.{image_bytes, head_bytes, cell_bytes};

use machine::made::Made;
use machine::refusal::Refusal;
use machine::within;
use rows::laid;
use rows::laid::Layout;
use schedule::limits;

// A cell's count: the readers that announced themselves and have not released. Of them `pending` have no guard yet.
#[derive(Clone, Copy, PartialEq, Eq, Default)]
pub struct Cell {
    pub count: u8,
    pub pending: u8,
    pub guards: u8,
}

// What is no cell: the record in store, and how far the writer is. `t` is 0 where nothing is stored, `cursor` where no writer is pending.
#[derive(Clone, Copy, PartialEq, Eq, Default)]
pub struct Head {
    pub t: u32,
    pub width: u8,
    pub cursor: u8,
    pub locked: bool,
    pub stored: bool,
    pub pending: bool,
    pub guard: bool,
}

#[derive(Clone, Copy, PartialEq, Eq, Default)]
pub struct State {
    pub head: Head,
    pub cells: [Cell; limits::WIDTH],
}

// A fresh lock, or the refusal of its parameters and a state of zeros.
#[tactic(auto, using(std::proofs::lemmas::Bool::Decides::nat_tests))]
pub fn fresh(width: u8, t: u32) -> Made<State>
    ensures { made_by result ≡ fresh_of width t }
{
    if width == 0 || limits::WIDTH < usize::from(width) {
        return Made {
            state: State::default(),
            verdict: Err(Refusal::Parameter),
        };
    }
    let head = Head {
        t,
        width,
        stored: true,
        ..Head::default()
    };
    Made {
        state: State {
            head,
            ..State::default()
        },
        verdict: Ok(()),
    }
}

// A cell as images have it.
pub struct CellLayout;

impl Layout<Cell> for CellLayout {
    ghost LONG = { 3 };

    const LONG: usize = 3;

    ghost bytes = { cell_bytes };

    fn put(out: &mut [u8], at: usize, c: Cell) -> usize {
        rows::put_bytes(out, at, &[c.count, c.pending, c.guards])
    }

    ghost even = { λ c. refl };

    ghost some = { Prim.search rules };
}

// The bytes of the head.
const HEAD: usize = 9;

// The image at the front of the buffer, or nothing where it does not fit; the answer is its length.
pub fn image(s: State, out: &mut [u8]) -> usize
    ensures { Laid out.old 0 (image_bytes s) result out.new }
{
    let n = within::in_use::<{ limits::WIDTH }>(s.head.width);
    if out.len() < HEAD + CellLayout::LONG * n {
        return 0;
    }
    let at = put_head(out, s.head);
    laid::put_all::<CellLayout, Cell>(out, at, &s.cells[..n])
}

// The head's bytes at the front of the buffer, all or nothing.
fn put_head(out: &mut [u8], h: Head) -> usize
    ensures { Laid out.old 0 (head_bytes h) result out.new }
{
    let [a, b, c, d] = h.t.to_be_bytes();
    let locked = u8::from(h.locked);
    let stored = u8::from(h.stored);
    let pending = u8::from(h.pending);
    let guard = u8::from(h.guard);
    rows::put_bytes(
        out,
        0,
        &[locked, stored, a, b, c, d, pending, h.cursor, guard],
    )
}
