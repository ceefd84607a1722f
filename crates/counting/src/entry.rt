// What an accepted step logs, and its bytes.
ghost use Rattle.rows.specs.Stores.{Laid};
ghost use Rattle.counting.specs.Image.{entry_bytes, tagged};

#[derive(Clone, Copy, PartialEq, Eq)]
pub enum Entry {
    // the value that readable_to_writeable withdraws
    Withdrawn { t: u32 },
    // the value of the reference that new_ref hands out
    Granted { t: u32 },
}

// The entry's bytes at a place of the log, all or nothing; the answer is the place after them.
pub fn put_entry(log: &mut [u8], at: usize, e: Entry) -> usize
    ensures { Laid log.old at (entry_bytes e) result log.new }
{
    match e {
        Entry::Withdrawn { t } => put_tagged(log, at, 1, t),
        Entry::Granted { t } => put_tagged(log, at, 2, t),
    }
}

// A tag and a value behind the length of both.
fn put_tagged(log: &mut [u8], at: usize, tag: u8, t: u32) -> usize
    ensures { Laid log.old at (tagged tag t) result log.new }
{
    let [a, b, c, d] = t.to_be_bytes();
    rows::put_bytes(log, at, &[5, tag, a, b, c, d])
}
