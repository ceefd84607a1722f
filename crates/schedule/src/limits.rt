// How large anything may be. The same numbers stand in specs/Limits.antt, and every proof that needs one ties the two.
pub const CLIENTS: usize = 16;

pub const WIDTH: usize = 16;

pub const THREADS: usize = 8;

pub const COUNTER: u8 = 255;

pub const STEPS: usize = 4096;

pub const BODY: usize = 49152;
// bytes of log that a step may take, and the least length of a state buffer
pub const ENTRY: usize = 10;

pub const IMAGE: usize = 512;
