// A fresh machine asked for, for any machine.
use super::refusal::Refusal;

// The machine, or a state of zeros with the reason why there is none.
#[derive(Clone, Copy)]
pub struct Made<S> {
    pub state: S,
    pub verdict: Result<(), Refusal>,
}
