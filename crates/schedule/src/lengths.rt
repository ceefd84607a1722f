// The one table of step lengths, and how far the step at a place of a file reaches.
ghost use Rattle.std.specs.Prelude.{◌≡◌, ℕ};
ghost use Rattle.schedule.specs.Widths.{length_of, RowOf};
ghost use Rattle.schedule.specs.Reading.{measured_at};

// What a step takes with its length byte, by what stands behind the length: the tag, then a client, cell or thread (who), then numbers (what).
// specs/Widths.antt has each step's.
pub const TAG: usize = 2;

pub const TAG_WHO: usize = 3;

pub const TAG_WHAT: usize = 6;

pub const TAG_WHO_WHAT: usize = 7;

pub const TAG_WHAT_WHAT: usize = 10;

pub const TAG_WHO_WHAT_WHAT: usize = 11;

// How many rows and columns the table has: the kinds and the tags, both from 0 on.
pub const KINDS: usize = 5;

pub const TAGS: usize = 9;

// 0 where there is no such step.
const LENGTHS: [[u8; TAGS]; KINDS] = [
    [0, 0, 0, 0, 0, 0, 0, 0, 0],
    [0, 10, 2, 1, 1, 1, 9, 1, 1],
    [0, 1, 1, 1, 5, 2, 2, 6, 0],
    [0, 5, 1, 1, 5, 0, 0, 0, 0],
    [0, 2, 2, 2, 0, 0, 0, 0, 0],
];

// A kind's row of the table, of zeros where there is no such kind. Whoever walks a file looks it up once.
pub fn row_of(kind: u8) -> [u8; TAGS]
    ensures { RowOf kind result }
{
    let row = usize::from(kind);
    if row < KINDS {
        LENGTHS[row]
    } else {
        LENGTHS[0]
    }
}

// The bytes after a step's length byte, 0 where there is no such step.
pub fn length_of(kind: u8, tag: u8) -> u8
    ensures { result ≡ length_of kind tag }
{
    let row = usize::from(kind);
    let column = usize::from(tag);
    if KINDS <= row {
        return 0;
    }
    if column < TAGS {
        LENGTHS[row][column]
    } else {
        0
    }
}

// What stands at a place is no step.
#[derive(Clone, Copy, PartialEq, Eq)]
pub struct Broken;

// The place after the step that stands at a place, or none where nothing more stands there, by the row of the file's kind.
pub(super) fn step_in(row: &[u8; TAGS], file: &[u8], at: usize) -> Result<Option<usize>, Broken>
    ensures { (kind : ℕ) → RowOf kind row.now → result ≡ measured_at kind file.now at }
{
    if file.len() <= at {
        return Ok(None);
    }
    let n = usize::from(file[at]);
    let b = at + 1;
    if n == 0 {
        return Err(Broken);
    }
    if file.len() - b < n {
        return Err(Broken);
    }
    let tag = usize::from(file[b]);
    if TAGS <= tag {
        return Err(Broken);
    }
    let own = usize::from(row[tag]);
    if own != n {
        return Err(Broken);
    }
    Ok(Some(b + n))
}

// The same by the kind itself.
pub fn measure(kind: u8, file: &[u8], at: usize) -> Result<Option<usize>, Broken>
    ensures { result ≡ measured_at kind file.now at }
{
    step_in(&row_of(kind), file, at)
}
