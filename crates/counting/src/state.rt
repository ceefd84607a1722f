// The state of the counting machine: fresh, and its image.
ghost use Rattle.std.specs.Prelude.{◌≡◌};
ghost use Rattle.rows.specs.Stores.{Laid};
ghost use Rattle.counting.specs.Counting.{fresh_state};
ghost use Rattle.counting.specs.Image.{image_bytes};

// The stored value and its counter are there or not together, so one flag serves both. All references carry `t`.
#[derive(Clone, Copy, PartialEq, Eq, Default)]
pub struct State {
    pub t: u32,
    pub count: u8,
    pub refs: u8,
    pub present: bool,
}

pub fn fresh() -> State
    ensures { result ≡ fresh_state }
{
    State::default()
}

// The image at the front of the buffer, or nothing where it does not fit; the answer is its length.
pub fn image(s: State, out: &mut [u8]) -> usize
    ensures { Laid out.old 0 (image_bytes s) result out.new }
{
    let [a, b, c, d] = s.t.to_be_bytes();
    rows::put_bytes(out, 0, &[u8::from(s.present), a, b, c, d, s.count, s.refs])
}
