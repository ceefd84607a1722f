// A number in decimal digits, no zero in front.
ghost use Rattle.std.specs.Prelude.{◌≡◌, ◌+◌, ◌≤◌, length};
ghost use Rattle.rows.specs.Stores.{Laid};
ghost use Rattle.lines.specs.Decimal.{digit_count, digits, decimal};

// The digits at a place of the buffer, all or nothing; the answer is the place after them.
pub fn put_decimal(out: &mut [u8], at: usize, n: usize) -> usize
    ensures { Laid out.old at (decimal n) result out.new }
{
    let k = digit_count(n);
    if out.len() < k || out.len() - k < at {
        return at;
    }
    put_digits(out, at, n, k)
}

// How many digits n has, 0 one too.
fn digit_count(n: usize) -> usize
    ensures value { result ≡ digit_count n }
    ensures upper_bound { result ≤ 20 }
{
    n.max(1).ilog10() as usize + 1
}

// The last k digits of n, from the last to the first.
fn put_digits(out: &mut [u8], at: usize, n: usize, k: usize) -> usize
    requires { at + k ≤ length out.old }
    ensures { Laid out.old at (digits k n) result out.new }
{
    let mut rest = n;
    for i in 0..k {
        out[at + (k - (i + 1))] = b'0' + (rest % 10) as u8;
        rest /= 10;
    }
    at + k
}
