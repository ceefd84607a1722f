// The three lines: the verdict with its place, the log, the state.
ghost use Rattle.std.specs.Prelude.{◌+◌, ◌*◌, ◌≤◌, ◌++◌, length};
ghost use Rattle.rows.specs.Stores.{Laid};
ghost use Rattle.lines.specs.Hex.{shown};
ghost use Rattle.lines.specs.Lines.{verdict_line, longest_verdict, Written, InFront};

use super::{decimal, hex};
use schedule::answer::Answer;
use schedule::limits;

// The longest log that a file has, and the most bytes that the lines can take: two digits for each byte shown, and 50 more for the words, two
// numbers of at most 3 and 20 digits, the line ends, and two hyphens.
pub const LOG: usize = limits::STEPS * limits::ENTRY;

pub const MOST: usize = 2 * (LOG + limits::IMAGE) + 50;

// The lines at the front of the buffer and how many bytes they take. Nothing is written to a buffer under MOST bytes, nor for a log or a state
// longer than any file has.
pub fn put_lines(out: &mut [u8], answer: Answer, log: &[u8], image: &[u8]) -> usize
    ensures written { Written out.old answer log.now image.now result out.new }
    ensures in_front { InFront result out.new }
{
    write_lines(out, answer, log, image)
}

fn write_lines(out: &mut [u8], answer: Answer, log: &[u8], image: &[u8]) -> usize
    ensures { Written out.old answer log.now image.now result out.new }
{
    if out.len() < MOST || LOG < log.len() || limits::IMAGE < image.len() {
        return 0;
    }
    let a = put_verdict(out, answer.code, answer.place);
    let b = put_row(out, a, b"\nlog ", hex::front(log, answer.logged));
    let c = put_row(out, b, b"\nstate ", hex::front(image, answer.imaged));
    rows::put_bytes(out, c, b"\n")
}

// The first line, without its end, which never takes more than the room asked for.
fn put_verdict(out: &mut [u8], code: u8, place: usize) -> usize
    requires { longest_verdict ≤ length out.old }
    ensures laid { Laid out.old 0 (verdict_line code place) result out.new }
    ensures bounded { length (verdict_line code place) ≤ longest_verdict }
{
    let a = rows::put_bytes(out, 0, b"verdict ");
    let b = decimal::put_decimal(out, a, usize::from(code));
    let c = rows::put_bytes(out, b, b" at ");
    decimal::put_decimal(out, c, place)
}

// The end of the line before, the line's name, and the bytes.
fn put_row(out: &mut [u8], at: usize, name: &[u8], bytes: &[u8]) -> usize
    requires { at + length name.now + 2 * length bytes.now + 1 ≤ length out.old }
    ensures { Laid out.old at (name.now ++ shown bytes.now) result out.new }
{
    let p = rows::put_bytes(out, at, name);
    hex::put_bytes(out, p, bytes)
}
