// The counting machine: t, count, refs, present.
ghost use Rattle.std.specs.Prelude.{◌≡◌};
ghost use Rattle.rows.specs.Stores.{Laid};
ghost use Rattle.raw.specs.Raw.{counting_from, counting_bytes};

use super::flags;
use counting::state::State;

pub const LENGTH: usize = 7;

// The state that the bytes tell; a byte that is not there is 0, and a flag is set by any byte but 0.
pub fn counting_from(raw: &[u8]) -> State
    ensures { result ≡ counting_from raw.now }
{
    State {
        t: rows::get(raw, 0),
        count: rows::get(raw, 4),
        refs: rows::get(raw, 5),
        present: flags::set_at(raw, 6),
    }
}

// The state's bytes over the front of the buffer, or nothing where they do not fit; the answer is how many.
pub fn put_counting(raw: &mut [u8], s: State) -> usize
    ensures { Laid raw.old 0 (counting_bytes s) result raw.new }
{
    let [t0, t1, t2, t3] = s.t.to_be_bytes();
    rows::put_bytes(
        raw,
        0,
        &[t0, t1, t2, t3, s.count, s.refs, u8::from(s.present)],
    )
}
