// Bytes and big-endian numbers, read from and written to a slice at any place. No function asks anything of its caller: a reader answers 0 where the
// slice does not have the bytes, and a writer stores all or nothing and answers the place after it.
#![tactic(auto)]

pub mod laid; // a row of records laid down one behind the other

ghost use Rattle.std.specs.Prelude.{◌≡◌, ◌<◌, ◌+◌, ◌^◌, ◌∷◌, [], ◌≤◌, ◌↔◌, IsTrue, List, ℕ, length};
ghost use Rattle.rows.specs.Bytes.{number_at, big};
ghost use Rattle.rows.specs.Stores.{Laid};

// A number as files, logs and images have it: big-endian, in as many bytes as its type takes.
pub trait Number: Copy {
    ghost width: { ℕ };

    ghost value: { Self → ℕ };

    ghost bytes: { Self → List ℕ };

    // The number whose bytes stand at a place, 0 where the slice does not have them.
    fn get(s: &[u8], at: usize) -> Self
        ensures { value result ≡ number_at s.now at width };

    // Its bytes laid down at a place, all or nothing; the answer is the place after them.
    fn put(self, out: &mut [u8], at: usize) -> usize
        ensures { Laid out.old at (bytes self) result out.new };

    // What is laid down of a number is its bytes in this width.
    ghost spelled: { (n : Self) → value n < 256 ^ width → bytes n ≡ big width (value n) };
}

impl Number for u8 {
    ghost width = { 1 };

    ghost value = { λ n. n };

    ghost bytes = { λ n. n ∷ [] };

    fn get(s: &[u8], at: usize) -> u8 {
        if at < s.len() { s[at] } else { 0 }
    }

    fn put(self, out: &mut [u8], at: usize) -> usize {
        put_bytes(out, at, &[self])
    }

    ghost spelled = { Rattle.rows.specs.Bytes.big_one };
}

impl Number for u16 {
    ghost width = { 2 };

    ghost value = { λ n. n };

    ghost bytes = { big 2 };

    fn get(s: &[u8], at: usize) -> u16 {
        if has(s, at, 2) {
            u16::from_be_bytes([s[at], s[at + 1]])
        } else {
            0
        }
    }

    fn put(self, out: &mut [u8], at: usize) -> usize {
        put_bytes(out, at, &self.to_be_bytes())
    }

    ghost spelled = { λ n h. Rattle.std.specs.Prelude.refl };
}

impl Number for u32 {
    ghost width = { 4 };

    ghost value = { λ n. n };

    ghost bytes = { big 4 };

    fn get(s: &[u8], at: usize) -> u32 {
        if has(s, at, 4) {
            u32::from_be_bytes([s[at], s[at + 1], s[at + 2], s[at + 3]])
        } else {
            0
        }
    }

    fn put(self, out: &mut [u8], at: usize) -> usize {
        put_bytes(out, at, &self.to_be_bytes())
    }

    ghost spelled = { λ n h. Rattle.std.specs.Prelude.refl };
}

// Whether a slice has so many bytes from a place on.
fn has(s: &[u8], at: usize, count: usize) -> bool
    ensures { IsTrue result ↔ (at + count ≤ length s.now) }
{
    count <= s.len() && at <= s.len() - count
}

// The number at a place.
pub fn get<N: Number>(s: &[u8], at: usize) -> N
    ensures { N.value result ≡ number_at s.now at N.width }
{
    N::get(s, at)
}

// A number's bytes.
pub fn put<N: Number>(out: &mut [u8], at: usize, n: N) -> usize
    ensures { Laid out.old at (N.bytes n) result out.new }
{
    n.put(out, at)
}

// The last four bytes of a number of any size.
pub fn put_last4(out: &mut [u8], at: usize, x: usize) -> usize
    ensures { Laid out.old at (big 4 x) result out.new }
{
    put(out, at, (x % 4_294_967_296) as u32)
}

// All of src.
pub fn put_bytes(out: &mut [u8], at: usize, src: &[u8]) -> usize
    ensures { Laid out.old at src.now result out.new }
{
    if has(out, at, src.len()) {
        let end = at + src.len();
        out[at..end].copy_from_slice(src);
        end
    } else {
        at
    }
}
