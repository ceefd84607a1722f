// The three lines that the answer to a file is written as: bytes in a buffer, for a program to print. Every public function takes any input.
#![tactic(auto)]

pub mod decimal; // a number in decimal digits
pub mod hex; // bytes as hexadecimal digits
pub mod verdict; // the three lines
