// One move of a thread, which the step applied in place calls: from its place, the flag's value and what is pending to its next place, as
// the source's loop goes on after the exchange or store that the place stands before.
ghost use Rattle.std.specs.Prelude.{◌≡◌};
ghost use Rattle.machine.specs.Check.{first};
ghost use Rattle.machine.specs.Refusals.{verdict_code};
ghost use Rattle.flag.specs.Flag as definition;
ghost use Rattle.flag.specs.Flag.{idle_tests, went};
ghost use Rattle.flag.specs.Moved.{may_move};

use machine::refusal::Refusal;
use schedule::limits;

// Whose flips a move carries out.
#[derive(Clone, Copy, PartialEq, Eq)]
pub enum Flips {
    Nobody,
    Mover,
    // that of the thread which offers its flip, and the mover's: they cancel each other
    Both,
}

// Where a move leads: the thread's place, the flag's value and what is pending, and whose flips it carries out.
#[derive(Clone, Copy, PartialEq, Eq)]
pub struct Went {
    pub place: u8,
    pub pending: u8,
    pub value: bool,
    pub flips: Flips,
}

// begin and read need an idle thread.
#[tactic(auto, using(std::proofs::lemmas::Bool::Decides::nat_tests))]
pub fn may_begin(place: u8) -> Result<(), Refusal>
    ensures { verdict_code result ≡ first (idle_tests place) }
{
    if place == 0 {
        Ok(())
    } else {
        Err(Refusal::Phase)
    }
}

// A move needs a thread in its flip; a place that no thread has is not sound.
#[tactic(auto, using(std::proofs::lemmas::Bool::Decides::nat_tests))]
pub fn may_move(place: u8) -> Result<(), Refusal>
    ensures { verdict_code result ≡ may_move place }
{
    match place {
        0 => Err(Refusal::Phase),
        1..=6 => Ok(()),
        _ => Err(Refusal::Unsound),
    }
}

// Where a move leads, as a row of the table below. Written out in each row, and not by a function: the fields of what a function answers would be packed
// into one register and taken apart again at every move.
macro_rules! to {
    ($place:expr, $pending:expr, $value:expr, $flips:expr) => {
        Went {
            place: $place,
            pending: $pending,
            value: $value,
            flips: $flips,
        }
    };
}

// Each place's exchange or store, and where the loop goes when it succeeds and when it fails.
#[tactic(auto, using(std::proofs::lemmas::Bool::Decides::nat_tests))]
pub fn go_on(place: u8, pending: u8, value: bool) -> Went
    ensures { result ≡ went place pending value }
{
    match place {
        1 if pending == 1 => to!(0, 2, value, Flips::Both),
        1 => to!(2, pending, value, Flips::Nobody),
        2 if value => to!(0, pending, false, Flips::Mover),
        2 => to!(3, pending, value, Flips::Nobody),
        3 if value => to!(4, pending, value, Flips::Nobody),
        3 => to!(0, pending, true, Flips::Mover),
        4 if pending == 0 => to!(5, 1, value, Flips::Nobody),
        4 => to!(1, pending, value, Flips::Nobody),
        5 if pending == 1 => to!(1, 0, value, Flips::Nobody),
        5 => to!(6, pending, value, Flips::Nobody),
        6 => to!(0, 0, value, Flips::Nobody),
        _ => to!(place, pending, value, Flips::Nobody),
    }
}

// The first thread that offers its flip, found only when the flip is taken.
pub fn offerer(places: [u8; limits::THREADS]) -> u8
    ensures { result ≡ definition.offerer places }
{
    let first = places.iter().position(|place| *place == 5);
    first.unwrap_or(limits::THREADS) as u8
}
