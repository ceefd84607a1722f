// How many steps a file has, or the fault among them: codes 6 and 7 in reading order.
ghost use Rattle.std.specs.Prelude.{◌≡◌};
ghost use Rattle.schedule.specs.Counting.{counted_of};

use super::front::Fault;
use super::lengths::Broken;
use super::{lengths, limits};

pub fn count(kind: u8, file: &[u8], from: usize) -> Result<usize, Fault>
    ensures { result ≡ counted_of kind file.now from }
{
    let row = lengths::row_of(kind);
    let mut at = from;
    for k in 0..limits::STEPS {
        match lengths::step_in(&row, file, at) {
            Ok(Some(next)) => at = next,
            Ok(None) => return Ok(k),
            Err(Broken) => return Err(Fault::Step { index: k }),
        }
    }
    if at < file.len() {
        Err(Fault::Surplus)
    } else {
        Ok(limits::STEPS)
    }
}
