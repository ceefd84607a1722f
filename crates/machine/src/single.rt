// What a single step answers, for any machine.
use super::refusal::Refusal;

// The state after the step with the length of what it logged, or the state as it was with the reason of the refusal.
#[derive(Clone, Copy)]
pub struct Answer<S> {
    pub state: S,
    pub logged: Result<usize, Refusal>,
}
