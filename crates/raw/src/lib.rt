// Machine states as bytes, field by field, so that another program can make up any state: the numbers big-endian, a flag as a byte, unused entries
// too. This is not the image, which leaves out what is unused. Every public function takes any input.
#![tactic(auto)]

mod flags;
pub mod counting_raw; // 7 bytes
pub mod lock_raw; // 10 bytes and 3 for each cell
pub mod flag_raw; // 3 bytes and one for each thread
pub mod flat_raw; // 16 bytes for each client, 5 for each element, 4 more
