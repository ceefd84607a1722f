// The kinds of machines, and the byte that each has in a file.
ghost use Rattle.std.specs.Prelude.{◌≡◌};
ghost use Rattle.schedule.specs.Kinds.{KindOf, number};

#[derive(Clone, Copy, PartialEq, Eq)]
pub enum Kind {
    Flat = 1,
    Lock = 2,
    Counting = 3,
    Flag = 4,
}

impl Kind {
    // The byte that a file has.
    pub fn byte(self) -> u8
        ensures { result ≡ number self }
    {
        self as u8
    }
}

// A byte that no kind has.
#[derive(Clone, Copy, PartialEq, Eq)]
pub struct UnknownKind;

impl TryFrom<u8> for Kind {
    type Error = UnknownKind;

    ghost try_from_gives = { KindOf };

    fn try_from(byte: u8) -> Result<Kind, UnknownKind> {
        match byte {
            1 => Ok(Kind::Flat),
            2 => Ok(Kind::Lock),
            3 => Ok(Kind::Counting),
            4 => Ok(Kind::Flag),
            _ => Err(UnknownKind),
        }
    }
}
