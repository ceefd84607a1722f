// A flag as a byte: any byte but 0 is read as set.
ghost use Rattle.std.specs.Prelude.{◌≡◌};
ghost use Rattle.raw.specs.Raw.{set_at};

pub fn set_at(raw: &[u8], at: usize) -> bool
    ensures { result ≡ set_at raw.now at }
{
    rows::get::<u8>(raw, at) != 0
}
