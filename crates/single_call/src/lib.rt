// The single step for programs that make states up: a kind, a raw state of that kind, one step as it stands in a file behind a byte for its kind,
// and a log buffer. Takes any input. Accepted: the state's bytes are those of the state after. Refused: no byte of the state changes.
#![tactic(auto)]

mod machines; // what a machine with raw states is
mod flat_call; // each of them
mod counting_call;
mod flag_call;
mod lock_call;

ghost use Rattle.std.specs.Prelude.{◌≡◌};
ghost use Rattle.single_call.specs.Call.{asked_by, called, StepLeaves, stepped, stepped_by};

use machine::refusal::Refusal;
use machines::RawMachine;
use schedule::kinds::Kind;
use schedule::read;
use schedule::steps::Step;

// The entry's length, or the reason of the refusal.
pub fn single_call(
    kind: u8,
    state: &mut [u8],
    step: &[u8],
    log: &mut [u8],
) -> Result<usize, Refusal>
    ensures { StepLeaves (stepped_by kind state.old (asked_by step.now) log.old) log.old (called result) state.new log.new }
{
    let Some(x) = step_of(step) else {
        return Err(Refusal::Malformed);
    };
    match Kind::try_from(kind) {
        Ok(Kind::Flat) => call::<flat::state::State>(state, x, log),
        Ok(Kind::Lock) => call::<lock::state::State>(state, x, log),
        Ok(Kind::Counting) => call::<counting::state::State>(state, x, log),
        Ok(Kind::Flag) => call::<flag::state::State>(state, x, log),
        Err(_) => Err(Refusal::Malformed),
    }
}

// What the step's bytes tell: one whole step of the kind that the first byte says and nothing behind it, or none. An empty step has no kind, so
// nothing stands behind it.
fn step_of(step: &[u8]) -> Option<Step>
    ensures { result ≡ asked_by step.now }
{
    match read::read(rows::get(step, 0), step, 1) {
        Ok(Some(found)) if found.next == step.len() => Some(found.step),
        _ => None,
    }
}

// The step on a machine's raw state.
fn call<M: RawMachine>(state: &mut [u8], x: Step, log: &mut [u8]) -> Result<usize, Refusal>
    ensures { StepLeaves (stepped M.raw state.old x log.old) log.old (called result) state.new log.new }
{
    if state.len() != M::LENGTH {
        return Err(Refusal::Malformed);
    }
    let answer = M::read(state).single(x, log);
    let logged = answer.logged?;
    answer.state.write(state);
    Ok(logged)
}
