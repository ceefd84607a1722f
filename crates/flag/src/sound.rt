// The test of a made-up state: one walk over the threads.
ghost use Rattle.std.specs.Prelude.{◌≡◌, ◌+◌, ◌≤◌};
ghost use Rattle.flag.specs.Sound as test;
ghost use Rattle.flag.specs.Sound.{sound, places_sound, place_sound};

use super::state::State;
use schedule::limits;

pub fn is_sound(s: State) -> bool
    ensures { result ≡ sound s }
{
    s.threads != 0 && usize::from(s.threads) <= limits::THREADS && places_sound(s)
}

// Each place is one that its thread may have, and those at 5 and at 6 agree with what is pending.
fn places_sound(s: State) -> bool
    ensures { result ≡ places_sound s }
{
    let mut fives: usize = 0;
    let mut sixes: usize = 0;
    for (i, &place) in s.places.iter().enumerate() {
        if !place_sound(s.threads, i, place) {
            return false;
        }
        fives += usize::from(place == 5);
        sixes += usize::from(place == 6);
    }
    handshake(s.pending, fives, sixes)
}

// A thread's place is 0 to 6; what is no thread has place 0.
#[tactic(auto, using(std::proofs::lemmas::Bool::Decides::nat_tests))]
fn place_sound(threads: u8, i: usize, p: u8) -> bool
    ensures { result ≡ place_sound threads i p }
{
    if i < usize::from(threads) {
        p <= 6
    } else {
        p == 0
    }
}

// Pending 0 with no thread at 5 or 6; 1 with exactly one at 5, none at 6; 2 with exactly one at 5 or 6.
#[tactic(auto, using(std::proofs::lemmas::Bool::Decides::nat_tests))]
fn handshake(pending: u8, fives: usize, sixes: usize) -> bool
    requires { fives + sixes ≤ 255 }
    ensures { result ≡ test.handshake pending fives sixes }
{
    match pending {
        0 => fives == 0 && sixes == 0,
        1 => fives == 1 && sixes == 0,
        2 => fives + sixes == 1,
        _ => false,
    }
}
