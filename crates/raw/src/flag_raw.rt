// The flag: threads, pending, value, then each thread's place.
ghost use Rattle.std.specs.Prelude.{◌≡◌};
ghost use Rattle.rows.specs.Stores.{Laid};
ghost use Rattle.raw.specs.Raw.{flag_places, flag_from, flag_bytes};

use super::flags;
use flag::state::State;
use schedule::limits;

pub const HEAD: usize = 3;

pub const LENGTH: usize = HEAD + limits::THREADS;

pub fn flag_from(raw: &[u8]) -> State
    ensures { result ≡ flag_from raw.now }
{
    State {
        threads: rows::get(raw, 0),
        pending: rows::get(raw, 1),
        value: flags::set_at(raw, 2),
        places: places_from(raw),
    }
}

fn places_from(raw: &[u8]) -> [u8; limits::THREADS]
    ensures { result ≡ flag_places raw.now }
{
    std::array::from_fn(|k| rows::get(raw, HEAD + k))
}

pub fn put_flag(raw: &mut [u8], s: State) -> usize
    ensures { Laid raw.old 0 (flag_bytes s) result raw.new }
{
    if raw.len() < LENGTH {
        return 0;
    }
    let a = rows::put_bytes(raw, 0, &[s.threads, s.pending, u8::from(s.value)]);
    rows::put_bytes(raw, a, &s.places)
}
