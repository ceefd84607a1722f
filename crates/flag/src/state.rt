// The state of the flag: fresh, and its image.
ghost use Rattle.std.specs.Prelude.{◌≡◌};
ghost use Rattle.rows.specs.Stores.{Laid};
ghost use Rattle.machine.specs.Made.{made_by};
ghost use Rattle.flag.specs.Flag.{fresh_of};
ghost use Rattle.flag.specs.Image.{image_bytes};

use machine::made::Made;
use machine::refusal::Refusal;
use machine::within;
use schedule::limits;

// Each thread's place in the source's loop: 0 idle, 1 to 6 before the exchange or store that it will try next.
#[derive(Clone, Copy, PartialEq, Eq, Default)]
pub struct State {
    pub threads: u8,
    pub pending: u8,
    pub value: bool,
    pub places: [u8; limits::THREADS],
}

// A fresh flag, or the refusal of its parameters with a state of zeros.
pub fn fresh(threads: u8, value: bool) -> Made<State>
    ensures { made_by result ≡ fresh_of threads value }
{
    if threads == 0 || limits::THREADS < usize::from(threads) {
        return Made {
            state: State::default(),
            verdict: Err(Refusal::Parameter),
        };
    }
    let state = State {
        threads,
        value,
        ..State::default()
    };
    Made {
        state,
        verdict: Ok(()),
    }
}

// The image at the front of the buffer, or nothing where it does not fit; the answer is its length.
pub fn image(s: State, out: &mut [u8]) -> usize
    ensures { Laid out.old 0 (image_bytes s) result out.new }
{
    let n = within::in_use::<{ limits::THREADS }>(s.threads);
    if out.len() < 2 + n {
        return 0;
    }
    let at = rows::put_bytes(out, 0, &[u8::from(s.value), s.pending]);
    rows::put_bytes(out, at, &s.places[..n])
}
