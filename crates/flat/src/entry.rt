// What an accepted step logs, and its bytes.
ghost use Rattle.rows.specs.Stores.{Laid};
ghost use Rattle.flat.specs.Image.{entry_bytes};

#[derive(Clone, Copy)]
pub enum Entry {
    // client j takes the response to its request
    Answer { j: u8, rid: u32, resp: u32 },
}

// The entry's bytes at a place of the log, all or nothing; the answer is the place after them.
pub fn put_entry(log: &mut [u8], at: usize, entry: Entry) -> usize
    ensures { Laid log.old at (entry_bytes entry) result log.new }
{
    let Entry::Answer { j, rid, resp } = entry;
    let [a, b, c, d] = rid.to_be_bytes();
    let [e, f, g, h] = resp.to_be_bytes();
    rows::put_bytes(log, at, &[9, j, a, b, c, d, e, f, g, h])
}
