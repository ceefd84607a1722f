// The flag with helping: a value that threads flip, each by single moves of the source's loop, where one thread may carry out another's flip.
// A step is applied to a state in place; the single step takes one by value and hands one back. Every public function here takes any input.
#![tactic(auto)]

pub mod state; // the state: fresh, and its image
pub mod sound; // the test of a made-up state
pub mod moves; // one move of a thread, from its place, the flag's value and what is pending
pub mod entry; // what a step logs
pub mod apply; // a step applied in place
pub mod single; // one step on any state
