// The counting machine: one stored value, the counter of the references to it, and the references held. A step is applied to a state in place; the
// single step takes one by value and hands one back. Every public function here takes any input.
#![tactic(auto)]

pub mod state; // the state: fresh, and its image
pub mod sound; // the test of a made-up state
pub mod moves; // the four transitions on a state
pub mod entry; // what a step logs
pub mod apply; // a step applied in place
pub mod single; // one step on any state
