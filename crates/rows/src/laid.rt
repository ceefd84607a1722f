// A row of records laid down one behind the other, each in the same number of bytes.
ghost use Rattle.std.specs.Prelude.{◌≡◌, ◌<◌, ◌≤◌, ◌+◌, ◌*◌, ◌↔◌, IsTrue, List, ℕ, length};
ghost use Rattle.rows.specs.Stores.{Laid};
ghost use Rattle.rows.specs.Walk.{pieces};

// How records of a type lie in a buffer. A type may lie in several ways, so a layout is a type of its own.
pub trait Layout<T> {
    // how many bytes a record takes
    ghost LONG: { ℕ };

    const LONG: usize;

    ghost bytes: { T → List ℕ };

    // The record's bytes at a place, all or nothing; the answer is the place after them.
    fn put(out: &mut [u8], at: usize, x: T) -> usize
        ensures { Laid out.old at (bytes x) result out.new };

    ghost even: { (x : T) → length (bytes x) ≡ LONG };

    ghost some: { 0 < LONG };
}

// All of a row, or nothing where it does not fit; the answer is the place after it.
pub fn put_all<L: Layout<T>, T: Copy>(out: &mut [u8], at: usize, row: &[T]) -> usize
    ensures { Laid out.old at (pieces L.bytes row.now) result out.new }
{
    if !has_room(out, at, L::LONG, row.len()) {
        return at;
    }
    let mut p = at;
    for x in row {
        p = L::put(out, p, *x);
    }
    p
}

// Room from a place on for so many records of a length.
fn has_room(out: &[u8], at: usize, long: usize, count: usize) -> bool
    requires { 0 < long }
    ensures { IsTrue result ↔ (at + count * long ≤ length out.now) }
{
    at <= out.len() && count <= (out.len() - at) / long
}
