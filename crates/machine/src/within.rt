// A row of clients, cells or threads, for any machine: a number that names one, and how many are in use.
ghost use Rattle.std.specs.Prelude.{◌≡◌, ◌≤◌, ltb, [], ◌∷◌};
ghost use Rattle.rows.specs.Walk.{at_most};
ghost use Rattle.machine.specs.Check.{need, first};
ghost use Rattle.machine.specs.Codes as code;
ghost use Rattle.machine.specs.Refusals.{verdict_code};
ghost use Rattle.machine.specs.Within.{PlaceOf};

use super::refusal::Refusal;

// Of `count` there is one with this number.
#[tactic(auto, using(std::proofs::lemmas::Bool::Decides::nat_tests))]
pub fn inside(count: u8, n: u8) -> Result<(), Refusal>
    ensures { verdict_code result ≡ first (need code.outside (ltb n count) ∷ []) }
{
    if n < count {
        Ok(())
    } else {
        Err(Refusal::Outside)
    }
}

// The place of a row that a number names. Where the row ends before it, which no sound state comes to, there is none.
pub fn place<const ROW: usize>(n: u8) -> Result<usize, Refusal>
    ensures { PlaceOf ROW n result }
{
    let i = usize::from(n);
    if i < ROW {
        Ok(i)
    } else {
        Err(Refusal::Unsound)
    }
}

// How many of a row are in use where this many are said to be; in a made-up state no more than the row has.
#[tactic(auto, using(std::proofs::lemmas::Bool::Decides::nat_tests))]
pub fn in_use<const ROW: usize>(n: u8) -> usize
    ensures value { result ≡ at_most ROW n }
    ensures upper_bound { result ≤ ROW }
{
    usize::from(n).min(ROW)
}
