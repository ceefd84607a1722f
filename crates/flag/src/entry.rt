// What an accepted step logs, and its bytes.
ghost use Rattle.rows.specs.Stores.{Laid};
ghost use Rattle.rows.specs.Walk.{pieces};
ghost use Rattle.flag.specs.Flag.{flipped, offerer};
ghost use Rattle.flag.specs.Image.{entry_bytes};

use super::moves;
use super::moves::Flips;
use schedule::limits;

#[derive(Clone, Copy, PartialEq, Eq)]
pub enum Entry {
    // the flip of thread k, whoever carried it out
    Flip { k: u8 },
    // what thread k read
    Saw { k: u8, value: bool },
}

// The entry's bytes at a place of the log, all or nothing; the answer is the place after them.
pub fn put_entry(log: &mut [u8], at: usize, e: Entry) -> usize
    ensures { Laid log.old at (entry_bytes e) result log.new }
{
    match e {
        Entry::Flip { k } => rows::put_bytes(log, at, &[2, 1, k]),
        Entry::Saw { k, value } => rows::put_bytes(log, at, &[3, 2, k, u8::from(value)]),
    }
}

// The flips that a move carried out, all or nothing: that of the thread which offered its flip, then the mover's.
pub fn put_flips(
    log: &mut [u8],
    at: usize,
    flips: Flips,
    places: [u8; limits::THREADS],
    k: u8,
) -> usize
    ensures { Laid log.old at (pieces entry_bytes (flipped flips (offerer places) k)) result log.new }
{
    match flips {
        Flips::Nobody => at,
        Flips::Mover => rows::put_bytes(log, at, &[2, 1, k]),
        Flips::Both => {
            let o = moves::offerer(places);
            rows::put_bytes(log, at, &[2, 1, o, 2, 1, k])
        }
    }
}
