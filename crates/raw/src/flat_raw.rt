// The flat combiner: each client's rid, req, resp, waiting, asked, told and slot; each element's rid and present; count, len, idx, responding.
ghost use Rattle.std.specs.Prelude.{◌≡◌, ◌≤◌, refl};
ghost use Rattle.std.proofs.Common.{rules};
ghost use Rattle.rows.specs.Stores.{Laid};
ghost use Rattle.raw.specs.Raw.{elems_at, combiner_at, client_at, clients_from, elem_at, elems_from, flat_from, client_bytes, elem_bytes, combiner_bytes, flat_bytes};

use super::flags;
use flat::state::{Client, Elem, State};
use rows::laid;
use rows::laid::Layout;
use schedule::limits;

// How many bytes a client, an element, and what the combiner has besides take.
pub const CLIENT: usize = 16;

pub const ELEM: usize = 5;

const REST: usize = 4;

pub const ELEMS: usize = CLIENT * limits::CLIENTS;

pub const COMBINER: usize = ELEMS + ELEM * limits::CLIENTS;

pub const LENGTH: usize = COMBINER + REST;

pub fn flat_from(raw: &[u8]) -> State
    ensures { result ≡ flat_from raw.now }
{
    State {
        clients: clients_from(raw),
        elems: elems_from(raw),
        count: rows::get(raw, COMBINER),
        len: rows::get(raw, COMBINER + 1),
        idx: rows::get(raw, COMBINER + 2),
        responding: flags::set_at(raw, COMBINER + 3),
    }
}

fn clients_from(raw: &[u8]) -> [Client; limits::CLIENTS]
    ensures { result ≡ clients_from raw.now }
{
    std::array::from_fn(|k| client_at(raw, CLIENT * k))
}

fn client_at(raw: &[u8], at: usize) -> Client
    requires { at ≤ elems_at }
    ensures { result ≡ client_at raw.now at }
{
    Client {
        rid: rows::get(raw, at),
        req: rows::get(raw, at + 4),
        resp: rows::get(raw, at + 8),
        waiting: flags::set_at(raw, at + 12),
        asked: flags::set_at(raw, at + 13),
        told: flags::set_at(raw, at + 14),
        slot: flags::set_at(raw, at + 15),
    }
}

fn elems_from(raw: &[u8]) -> [Elem; limits::CLIENTS]
    ensures { result ≡ elems_from raw.now }
{
    std::array::from_fn(|k| elem_at(raw, ELEMS + ELEM * k))
}

fn elem_at(raw: &[u8], at: usize) -> Elem
    requires { at ≤ combiner_at }
    ensures { result ≡ elem_at raw.now at }
{
    Elem {
        rid: rows::get(raw, at),
        present: flags::set_at(raw, at + 4),
    }
}

pub fn put_flat(raw: &mut [u8], s: State) -> usize
    ensures { Laid raw.old 0 (flat_bytes s) result raw.new }
{
    if raw.len() < LENGTH {
        return 0;
    }
    let a = laid::put_all::<ClientLayout, Client>(raw, 0, &s.clients);
    let b = laid::put_all::<ElemLayout, Elem>(raw, a, &s.elems);
    put_combiner(raw, b, s)
}

// A client, field by field.
struct ClientLayout;

impl Layout<Client> for ClientLayout {
    ghost LONG = { 16 };

    const LONG: usize = CLIENT;

    ghost bytes = { client_bytes };

    fn put(out: &mut [u8], at: usize, c: Client) -> usize {
        let [rid0, rid1, rid2, rid3] = c.rid.to_be_bytes();
        let [req0, req1, req2, req3] = c.req.to_be_bytes();
        let [resp0, resp1, resp2, resp3] = c.resp.to_be_bytes();
        let waiting = u8::from(c.waiting);
        let asked = u8::from(c.asked);
        let told = u8::from(c.told);
        let slot = u8::from(c.slot);
        rows::put_bytes(
            out,
            at,
            &[
                rid0, rid1, rid2, rid3, req0, req1, req2, req3, resp0, resp1, resp2, resp3,
                waiting, asked, told, slot,
            ],
        )
    }

    ghost even = { λ c. refl };

    ghost some = { Prim.search rules };
}

// An element, field by field.
struct ElemLayout;

impl Layout<Elem> for ElemLayout {
    ghost LONG = { 5 };

    const LONG: usize = ELEM;

    ghost bytes = { elem_bytes };

    fn put(out: &mut [u8], at: usize, e: Elem) -> usize {
        let [rid0, rid1, rid2, rid3] = e.rid.to_be_bytes();
        rows::put_bytes(out, at, &[rid0, rid1, rid2, rid3, u8::from(e.present)])
    }

    ghost even = { λ e. refl };

    ghost some = { Prim.search rules };
}

fn put_combiner(raw: &mut [u8], at: usize, s: State) -> usize
    ensures { Laid raw.old at (combiner_bytes s) result raw.new }
{
    rows::put_bytes(raw, at, &[s.count, s.len, s.idx, u8::from(s.responding)])
}
