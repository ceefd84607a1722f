// Bytes as upper-case hexadecimal digits, two for each; nothing is shown as a hyphen.
ghost use Rattle.std.specs.Prelude.{◌≡◌, ◌<◌, take};
ghost use Rattle.std.proofs.Common.{rules};
ghost use Rattle.rows.specs.Stores.{Laid};
ghost use Rattle.lines.specs.Hex.{glyph, hex_byte, shown};

use rows::laid;
use rows::laid::Layout;

// The first n bytes, or all where there are fewer, at a place of the buffer, all or nothing; the answer is the place after them.
pub fn put_shown(out: &mut [u8], at: usize, bytes: &[u8], n: usize) -> usize
    ensures { Laid out.old at (shown (take n bytes.now)) result out.new }
{
    put_bytes(out, at, front(bytes, n))
}

// The first n bytes, or all where there are fewer.
pub(super) fn front(bytes: &[u8], n: usize) -> &[u8]
    ensures { result.now ≡ take n bytes.now }
{
    &bytes[..n.min(bytes.len())]
}

// All the bytes, all or nothing, or the hyphen.
pub(super) fn put_bytes(out: &mut [u8], at: usize, bytes: &[u8]) -> usize
    ensures { Laid out.old at (shown bytes.now) result out.new }
{
    if bytes.is_empty() {
        return rows::put(out, at, b'-');
    }
    laid::put_all::<TwoDigits, u8>(out, at, bytes)
}

// A byte as its two digits.
struct TwoDigits;

impl Layout<u8> for TwoDigits {
    ghost LONG = { 2 };

    const LONG: usize = 2;

    ghost bytes = { hex_byte };

    fn put(out: &mut [u8], at: usize, byte: u8) -> usize {
        rows::put_bytes(out, at, &[digit(byte / 16), digit(byte % 16)])
    }

    ghost even = { λ byte. Rattle.std.specs.Prelude.refl };

    ghost some = { Prim.search rules };
}

// '0' to '9', then 'A' to 'F'.
#[tactic(auto, using(std::proofs::lemmas::Bool::Decides::nat_tests))]
fn digit(d: u8) -> u8
    requires { d < 16 }
    ensures { result ≡ glyph d }
{
    if d < 10 { b'0' + d } else { b'A' - 10 + d }
}
