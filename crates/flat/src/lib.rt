// The flat combiner: clients leave requests in slots, one combiner gathers them in turn and answers them in turn. A step changes a state in place, and
// one that is refused leaves it. Every public function here takes any input.
#![tactic(auto)]

pub mod state; // the state: fresh, and its image
pub mod sound; // the test of a made-up state
pub mod client; // the clients' transitions, on one client
pub mod combiner; // the combiner's transitions: its tests, and one client with its element
pub mod entry; // what a step logs
pub mod apply; // a step applied to the state in place
pub mod single; // one step on any state
