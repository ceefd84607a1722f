// The test of a made-up state.
ghost use Rattle.std.specs.Prelude.{◌≡◌};
ghost use Rattle.counting.specs.Sound.{sound};

use super::state::State;
use schedule::limits;

#[tactic(auto, using(std::proofs::lemmas::Bool::Decides::nat_tests))]
pub fn is_sound(s: State) -> bool
    ensures { result ≡ sound s }
{
    if s.present {
        s.count <= limits::COUNTER && s.refs == s.count
    } else {
        s == State::default()
    }
}
