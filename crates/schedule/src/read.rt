// The step at a place of a file: of a known kind, or of the kind asked for with the place after it.
ghost use Rattle.std.specs.Prelude.{◌≡◌, ℕ};
ghost use Rattle.schedule.specs.Language.{Language, step_at, size_of, tagged_at, spelled};
ghost use Rattle.schedule.specs.Spelling.{flat, lock, counting, flag};
ghost use Rattle.schedule.specs.Finding.{any_at, found_at};

use super::kinds::Kind;
use super::lengths;
use super::lengths::Broken;
use super::steps::{CountingStep, FlagStep, FlatStep, LockStep, Step};

// The steps of one kind, as they are written.
pub trait Spelled: Copy {
    ghost language: { Language Self };

    // The step of a tag, from the bytes behind it. Nothing is asked of them: a number that is not there is read as 0, and an unknown tag as some step.
    fn tagged(tag: u8, numbers: &[u8]) -> Self
        ensures { result ≡ tagged_at language numbers.now tag 0 };

    // How many bytes of a file the step takes, its length byte among them.
    fn size(self) -> usize
        ensures { result ≡ size_of language self };
}

// The tag behind the length byte at a place, and the bytes behind it; 0 and none where the file ends before. Whatever the kind, they spell the step that
// stands there. Nothing is asked of the place.
#[inline(always)]
pub(super) fn tag_at(file: &[u8], at: usize) -> (u8, &[u8])
    ensures { (kind : ℕ) → tagged_at (spelled kind) result.1.now result.0 0 ≡ step_at (spelled kind) file.now at }
{
    if file.len() < 2 {
        return (0, &[]);
    }
    if file.len() - 2 < at {
        return (0, &[]);
    }
    let p = at + 1;
    (file[p], &file[p + 1..])
}

// The step whose length byte stands at a place. What was measured whole is read as it stands.
#[inline(always)]
pub fn step_at<S: Spelled>(file: &[u8], at: usize) -> S
    ensures { result ≡ step_at S.language file.now at }
{
    let (tag, numbers) = tag_at(file, at);
    S::tagged(tag, numbers)
}

impl Spelled for FlatStep {
    ghost language = { flat };

    #[inline(always)]
    #[tactic(auto, unfolding(crate::specs::Widths::widths, crate::specs::Widths::widths_of))]
    fn tagged(tag: u8, numbers: &[u8]) -> FlatStep {
        match tag {
            1 => FlatStep::ClientSend {
                j: rows::get(numbers, 0),
                rid: rows::get(numbers, 1),
                req: rows::get(numbers, 5),
            },
            2 => FlatStep::ClientRecv {
                j: rows::get(numbers, 0),
            },
            3 => FlatStep::CombinerRecv,
            4 => FlatStep::CombinerSkip,
            5 => FlatStep::CombinerGoToResponding,
            6 => FlatStep::CombinerSend {
                rid: rows::get(numbers, 0),
                resp: rows::get(numbers, 4),
            },
            7 => FlatStep::CombinerSendSkip,
            _ => FlatStep::CombinerGoToCollecting,
        }
    }

    #[inline(always)]
    #[tactic(auto, unfolding(crate::specs::Widths::widths, crate::specs::Widths::widths_of))]
    fn size(self) -> usize {
        match self {
            FlatStep::ClientSend { .. } => lengths::TAG_WHO_WHAT_WHAT,
            FlatStep::ClientRecv { .. } => lengths::TAG_WHO,
            FlatStep::CombinerSend { .. } => lengths::TAG_WHAT_WHAT,
            _ => lengths::TAG,
        }
    }
}

impl Spelled for LockStep {
    ghost language = { lock };

    #[inline(always)]
    #[tactic(auto, unfolding(crate::specs::Widths::widths, crate::specs::Widths::widths_of))]
    fn tagged(tag: u8, numbers: &[u8]) -> LockStep {
        match tag {
            2 => LockStep::ExcCheckCount,
            3 => LockStep::ExcFinish,
            4 => LockStep::ExcRelease {
                t: rows::get(numbers, 0),
            },
            5 => LockStep::SharedStart {
                r: rows::get(numbers, 0),
            },
            6 => LockStep::SharedFinish {
                r: rows::get(numbers, 0),
            },
            7 => LockStep::SharedRelease {
                r: rows::get(numbers, 0),
                t: rows::get(numbers, 1),
            },
            _ => LockStep::ExcStart,
        }
    }

    #[inline(always)]
    #[tactic(auto, unfolding(crate::specs::Widths::widths, crate::specs::Widths::widths_of))]
    fn size(self) -> usize {
        match self {
            LockStep::ExcRelease { .. } => lengths::TAG_WHAT,
            LockStep::SharedStart { .. } => lengths::TAG_WHO,
            LockStep::SharedFinish { .. } => lengths::TAG_WHO,
            LockStep::SharedRelease { .. } => lengths::TAG_WHO_WHAT,
            _ => lengths::TAG,
        }
    }
}

impl Spelled for CountingStep {
    ghost language = { counting };

    #[inline(always)]
    #[tactic(auto, unfolding(crate::specs::Widths::widths, crate::specs::Widths::widths_of))]
    fn tagged(tag: u8, numbers: &[u8]) -> CountingStep {
        match tag {
            1 => CountingStep::WriteableToReadable {
                t: rows::get(numbers, 0),
            },
            2 => CountingStep::ReadableToWriteable,
            4 => CountingStep::DeleteRef {
                t: rows::get(numbers, 0),
            },
            _ => CountingStep::NewRef,
        }
    }

    #[inline(always)]
    #[tactic(auto, unfolding(crate::specs::Widths::widths, crate::specs::Widths::widths_of))]
    fn size(self) -> usize {
        match self {
            CountingStep::WriteableToReadable { .. } => lengths::TAG_WHAT,
            CountingStep::DeleteRef { .. } => lengths::TAG_WHAT,
            _ => lengths::TAG,
        }
    }
}

impl Spelled for FlagStep {
    ghost language = { flag };

    #[inline(always)]
    #[tactic(auto, unfolding(crate::specs::Widths::widths, crate::specs::Widths::widths_of))]
    fn tagged(tag: u8, numbers: &[u8]) -> FlagStep {
        match tag {
            1 => FlagStep::Begin {
                k: rows::get(numbers, 0),
            },
            2 => FlagStep::Move {
                k: rows::get(numbers, 0),
            },
            3 => FlagStep::Read {
                k: rows::get(numbers, 0),
            },
            _ => FlagStep::Begin { k: 0 },
        }
    }

    #[inline(always)]
    #[tactic(auto, unfolding(crate::specs::Widths::widths, crate::specs::Widths::widths_of))]
    fn size(self) -> usize {
        match self {
            _ => lengths::TAG_WHO,
        }
    }
}

// A step that stands in a file, and the place after it.
#[derive(Clone, Copy)]
pub struct Found {
    pub step: Step,
    pub next: usize,
}

// What stands at a place of a file of a kind, or none where nothing more does.
#[tactic(auto, unfolding(crate::specs::Finding::found_at))]
pub fn read(kind: u8, file: &[u8], at: usize) -> Result<Option<Found>, Broken>
    ensures { result ≡ found_at kind file.now at }
{
    let Some(next) = lengths::measure(kind, file, at)? else {
        return Ok(None);
    };
    let step = any_at(kind, file, at);
    Ok(Some(Found { step, next }))
}

// The step that stands there, as a kind's steps are written; no kind has a whole step but the four.
fn any_at(kind: u8, file: &[u8], at: usize) -> Step
    ensures { result ≡ any_at kind file.now at }
{
    match Kind::try_from(kind) {
        Ok(Kind::Flat) => Step::Flat(step_at(file, at)),
        Ok(Kind::Lock) => Step::Lock(step_at(file, at)),
        Ok(Kind::Counting) => Step::Counting(step_at(file, at)),
        Ok(Kind::Flag) => Step::Flag(step_at(file, at)),
        Err(_) => Step::Flag(step_at(file, at)),
    }
}
