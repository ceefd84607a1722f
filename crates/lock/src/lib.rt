// The shift lock: one record in store, a writer that checks the cells one by one, readers counted in a cell each. Every public function here takes
// any input.
#![tactic(auto)]

pub mod state; // the state: fresh, and its image
pub mod sound; // the test of a made-up state
pub mod writer; // the writer's transitions, on the head
pub mod reader; // the readers' transitions, on one cell
pub mod entry; // what a step logs
mod step; // each step, on the state
pub mod apply; // any step, on the state and a log
pub mod single; // one step on any state
