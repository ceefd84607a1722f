// The replayer for programs in other languages: a function on numbers and byte slices, exported under its plain name. Nothing is asked of a caller
// but that the slices are there.
#![tactic(auto)]

ghost use Rattle.std.specs.Prelude.{refl};
ghost use Rattle.std.proofs.Common.{rules};
ghost use Rattle.rows.specs.Bytes.{big};
ghost use Rattle.bridge.specs.Called.{called, CallLeaves};

use machine::refusal::Refusal;
use rows::laid;
use rows::laid::Layout;

// What a whole file answers besides its code: the place and the lengths of log and image, four bytes each.
const FIGURES: usize = 12;

// A whole file: the code is answered, and `figures` gets the place and the lengths of log and image, big-endian. With less room than that nothing is
// done and the answer is 8.
#[unsafe(no_mangle)]
pub extern "C" fn ladlecomet_replay(
    file: &[u8],
    log: &mut [u8],
    image: &mut [u8],
    figures: &mut [u8],
) -> u8
    ensures { CallLeaves (called file.now log.old image.old figures.old) result log.new image.new figures.new }
{
    if figures.len() < FIGURES {
        return Refusal::Room.code();
    }
    let a = replayer::replay(file, log, image);
    laid::put_all::<FourBytes, usize>(figures, 0, &[a.place, a.logged, a.imaged]);
    a.code
}

// A number's last four bytes.
struct FourBytes;

impl Layout<usize> for FourBytes {
    ghost LONG = { 4 };

    const LONG: usize = 4;

    ghost bytes = { big 4 };

    fn put(out: &mut [u8], at: usize, n: usize) -> usize {
        rows::put_last4(out, at, n)
    }

    ghost even = { λ n. refl };

    ghost some = { Prim.search rules };
}
