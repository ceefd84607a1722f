// The language of schedules: what a file says, or the one fault that it has.
#![tactic(auto)]

pub mod limits; // how large anything may be
pub mod kinds; // the number of each kind
pub mod steps; // the steps of each kind, and a file's parameters
pub mod lengths; // the one table of step lengths, and how far the step at a place reaches
pub mod front; // a file up to its first step: codes 1 to 5
pub mod count; // how many steps follow: codes 6 and 7
pub mod read; // the step at a place
pub mod answer; // the answer to a whole file
pub mod stepped; // the single step and the replay of a file, once for every machine
