// What a step machine, a history and a replay are: definitions (specs/) and laws (proofs/) that every machine cites; the reasons of refusals.
#![tactic(auto)]

pub mod refusal; // why something is refused, and the number of each reason
pub mod single; // what a single step answers
pub mod made; // a fresh machine asked for
pub mod within; // a row's entries: a number that names one, and how many are in use
