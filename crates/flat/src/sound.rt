// The test of a made-up state: one walk over the clients, each with its element.
#![tactic(auto, using(std::proofs::lemmas::Bool::Decides::nat_tests))]

ghost use Rattle.std.specs.Prelude.{◌≡◌};
ghost use Rattle.rows.specs.Walk.{every};
ghost use Rattle.flat.specs.Sound.{sound, combiner_sound, place_sound, place_sound_at, held_from, client_sound, elem_sound, is_gathered, is_asking, is_answered};

use super::state::{Client, Elem, State};
use schedule::limits;

pub fn is_sound(s: State) -> bool
    ensures { result ≡ sound s }
{
    combiner_sound(s.count, s.len, s.idx, s.responding) && places_sound(s)
}

// Clients in their limits; collecting with the cursor at rest, or responding with all gathered.
fn combiner_sound(count: u8, len: u8, idx: u8, responding: bool) -> bool
    ensures { result ≡ combiner_sound count len idx responding }
{
    if limits::CLIENTS < usize::from(count) {
        return false;
    }
    if responding {
        len == count && idx <= count
    } else {
        len <= count && idx == 0
    }
}

fn places_sound(s: State) -> bool
    ensures { result ≡ every (place_sound s) 0 s.clients }
{
    let pairs = s.clients.iter().zip(s.elems.iter());
    pairs.enumerate().all(|(j, (&c, &e))| place_sound(j, s.count, s.len, s.idx, c, e))
}

fn place_sound(j: usize, count: u8, len: u8, idx: u8, c: Client, e: Elem) -> bool
    ensures { result ≡ place_sound_at j count len idx c e }
{
    elem_sound(j, len, e) && client_sound(j, count, held(j, len, idx, e), c, e)
}

// An element that was not gathered is zero, and so is the id of an empty one.
fn elem_sound(j: usize, len: u8, e: Elem) -> bool
    ensures { result ≡ elem_sound j len e }
{
    if e.present {
        j < usize::from(len)
    } else {
        e.rid == 0
    }
}

// The combiner has the client's id: gathered, and not answered yet.
fn held(j: usize, len: u8, idx: u8, e: Elem) -> bool
    ensures { result ≡ held_from j len idx e }
{
    e.present && j < usize::from(len) && usize::from(idx) <= j
}

// A client rests (all zeros), has asked, is held by the combiner, or was told.
fn client_sound(j: usize, count: u8, has: bool, c: Client, e: Elem) -> bool
    ensures { result ≡ client_sound j count has c e }
{
    if !c.waiting {
        return !has && c == Client::default();
    }
    if usize::from(count) <= j {
        return false;
    }
    if has {
        return c.rid == e.rid && gathered(c);
    }
    if c.asked { asking(c) } else { answered(c) }
}

// Waiting, its request withdrawn by the combiner.
fn gathered(c: Client) -> bool
    ensures { result ≡ is_gathered c }
{
    !c.asked && !c.told && c.req == 0 && c.resp == 0 && c.slot
}

// Waiting, its request stored.
fn asking(c: Client) -> bool
    ensures { result ≡ is_asking c }
{
    !c.told && c.resp == 0 && c.slot
}

// Waiting, its response stored and its slot clear.
fn answered(c: Client) -> bool
    ensures { result ≡ is_answered c }
{
    !c.slot && c.req == 0 && c.told
}
