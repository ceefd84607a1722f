// What an accepted step logs, and its bytes.
ghost use Rattle.rows.specs.Stores.{Laid};
ghost use Rattle.lock.specs.Image.{entry_bytes};

#[derive(Clone, Copy, PartialEq, Eq)]
pub enum Entry {
    // the record that exc_finish withdraws
    Withdrawn { t: u32 },
    // the guard that shared_finish hands out
    Granted { r: u8, t: u32 },
}

// The entry's bytes at a place of the log, all or nothing; the answer is the place after them.
pub fn put_entry(log: &mut [u8], at: usize, e: Entry) -> usize
    ensures { Laid log.old at (entry_bytes e) result log.new }
{
    match e {
        Entry::Withdrawn { t } => {
            let [a, b, c, d] = t.to_be_bytes();
            rows::put_bytes(log, at, &[5, 1, a, b, c, d])
        }
        Entry::Granted { r, t } => {
            let [a, b, c, d] = t.to_be_bytes();
            rows::put_bytes(log, at, &[6, 2, r, a, b, c, d])
        }
    }
}
