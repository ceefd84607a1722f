// The clients' transitions on one client, which the step applied in place calls.
#![tactic(auto, using(std::proofs::lemmas::Bool::Decides::nat_tests))]

ghost use Rattle.std.specs.Prelude.{◌≡◌};
ghost use Rattle.machine.specs.Move.{as_moved};
ghost use Rattle.flat.specs.Moved.{sent_client, received_client};

use super::state::Client;
use machine::refusal::Refusal;

// An idle client leaves a request and sets its slot.
pub fn client_send(c: Client, rid: u32, req: u32) -> Result<Client, Refusal>
    ensures { as_moved c result ≡ sent_client c rid req }
{
    if c.waiting {
        return Err(Refusal::Phase);
    }
    Ok(Client {
        rid,
        req,
        waiting: true,
        asked: true,
        slot: true,
        ..c
    })
}

// A waiting client whose slot is clear takes its response.
pub fn client_recv(c: Client) -> Result<Client, Refusal>
    ensures { as_moved c result ≡ received_client c }
{
    if !c.waiting {
        return Err(Refusal::Phase);
    }
    if c.slot {
        return Err(Refusal::Slot);
    }
    if !c.told {
        return Err(Refusal::Unsound);
    }
    Ok(Client {
        rid: 0,
        resp: 0,
        waiting: false,
        told: false,
        ..c
    })
}
