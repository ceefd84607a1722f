// The single step for programs in other languages: the library's function, exported under its plain name.
#![tactic(auto)]

ghost use Rattle.single_call.specs.Call.{exported, ExportLeaves};

use machine::refusal::{self, Refusal};

// The single step under its plain name: the code is answered, and `figures` gets the entry's length, four bytes, big-endian. With less room than
// that nothing is done and the answer is 8.
#[unsafe(no_mangle)]
pub extern "C" fn ladlecomet_single(
    kind: u8,
    state: &mut [u8],
    step: &[u8],
    log: &mut [u8],
    figures: &mut [u8],
) -> u8
    ensures { ExportLeaves (exported kind state.old step.now log.old figures.old) result state.new log.new figures.new }
{
    if figures.len() < 4 {
        return Refusal::Room.code();
    }
    let answer = single_call::single_call(kind, state, step, log);
    rows::put_last4(figures, 0, answer.unwrap_or(0));
    refusal::code_of(answer.map(|_| ()))
}
