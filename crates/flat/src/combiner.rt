// The combiner's transitions, which the step applied in place calls: the tests on its mode and cursor, and what a step does to one client and its element.
#![tactic(auto, using(std::proofs::lemmas::Bool::Decides::nat_tests))]

ghost use Rattle.std.specs.Prelude.{◌≡◌};
ghost use Rattle.machine.specs.Check.{first};
ghost use Rattle.machine.specs.Move.{as_moved};
ghost use Rattle.machine.specs.Refusals.{verdict_code};
ghost use Rattle.flat.specs.Flat.{zero_elem, gather_tests, respond_tests, answer_tests, collect_tests, skip_tests};
ghost use Rattle.flat.specs.Moved.{ungathered, gathered_client, answered_client};

use super::state::{Client, Elem};
use machine::refusal::Refusal;

// combiner_recv and combiner_skip: collecting, and a client is left.
pub fn may_gather(responding: bool, len: u8, count: u8) -> Result<(), Refusal>
    ensures { verdict_code result ≡ first (gather_tests responding len count) }
{
    if responding {
        Err(Refusal::Phase)
    } else if len < count {
        Ok(())
    } else {
        Err(Refusal::Cursor)
    }
}

// combiner_go_to_responding: collecting, and no client is left.
pub fn may_respond(responding: bool, len: u8, count: u8) -> Result<(), Refusal>
    ensures { verdict_code result ≡ first (respond_tests responding len count) }
{
    if responding {
        Err(Refusal::Phase)
    } else if len == count {
        Ok(())
    } else {
        Err(Refusal::Cursor)
    }
}

// combiner_send and combiner_send_skip: responding, and an element is left.
pub fn may_answer(responding: bool, idx: u8, count: u8) -> Result<(), Refusal>
    ensures { verdict_code result ≡ first (answer_tests responding idx count) }
{
    if !responding {
        Err(Refusal::Phase)
    } else if idx < count {
        Ok(())
    } else {
        Err(Refusal::Cursor)
    }
}

// combiner_go_to_collecting: responding, and no element is left.
pub fn may_collect(responding: bool, idx: u8, count: u8) -> Result<(), Refusal>
    ensures { verdict_code result ≡ first (collect_tests responding idx count) }
{
    if !responding {
        Err(Refusal::Phase)
    } else if idx == count {
        Ok(())
    } else {
        Err(Refusal::Cursor)
    }
}

pub fn no_elem() -> Elem
    ensures { result ≡ zero_elem }
{
    Elem::default()
}

// The client and the element that the combiner keeps of it.
#[derive(Clone, Copy)]
pub struct Gathered {
    pub client: Client,
    pub elem: Elem,
}

// combiner_recv: the request is withdrawn and its id kept. The slot stays set.
pub fn combiner_recv(c: Client) -> Result<Gathered, Refusal>
    ensures { as_moved (ungathered c) result ≡ gathered_client c }
{
    if !c.slot {
        return Err(Refusal::Slot);
    }
    if !c.asked {
        return Err(Refusal::Unsound);
    }
    let client = Client {
        req: 0,
        asked: false,
        ..c
    };
    let elem = Elem {
        rid: c.rid,
        present: true,
    };
    Ok(Gathered { client, elem })
}

// combiner_send: the element is this very id; the response is left and the slot cleared.
pub fn combiner_send(c: Client, e: Elem, rid: u32, resp: u32) -> Result<Client, Refusal>
    ensures { as_moved c result ≡ answered_client c e rid resp }
{
    if !e.present || rid != e.rid {
        return Err(Refusal::Element);
    }
    Ok(Client {
        resp,
        told: true,
        slot: false,
        ..c
    })
}

// combiner_send_skip: the element holds no id.
pub fn may_skip(e: Elem) -> Result<(), Refusal>
    ensures { verdict_code result ≡ first (skip_tests e) }
{
    if e.present {
        Err(Refusal::Element)
    } else {
        Ok(())
    }
}
