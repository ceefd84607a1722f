// The state of the flat combiner: fresh, and its image.
ghost use Rattle.std.specs.Prelude.{◌≡◌, ◌∷◌, cond, refl};
ghost use Rattle.std.proofs.Common.{lit<};
ghost use mir.Val.{bool_byte};
ghost use Rattle.rows.specs.Bytes.{big};
ghost use Rattle.rows.specs.Stores.{Laid};
ghost use Rattle.rows.specs.Mask as slots;
ghost use Rattle.machine.specs.Made.{made_by};
ghost use Rattle.flat.specs.Flat.{fresh_state, fresh_of};
ghost use Rattle.flat.specs.Image.{image_bytes, client_bytes, message_bytes, elem_bytes, combiner_bytes, slot_of, client_long, elem_long};

use machine::made::Made;
use machine::refusal::Refusal;
use machine::within;
use rows::laid;
use rows::laid::Layout;
use schedule::limits;

// A client, its slot, the request and the response stored for it. Both carry the client's own id, so it stands once; `req` and `resp` are 0
// where none is stored.
#[derive(Clone, Copy, PartialEq, Eq, Default)]
pub struct Client {
    pub rid: u32,
    pub req: u32,
    pub resp: u32,
    pub waiting: bool,
    pub asked: bool,
    pub told: bool,
    pub slot: bool,
}

// What the combiner gathered from a client: an id, or nothing.
#[derive(Clone, Copy, PartialEq, Eq, Default)]
pub struct Elem {
    pub rid: u32,
    pub present: bool,
}

// `count` clients; the combiner gathered `len` elements, and while it responds `idx` of them are done.
#[derive(Clone, Copy, PartialEq, Eq, Default)]
pub struct State {
    pub clients: [Client; limits::CLIENTS],
    pub elems: [Elem; limits::CLIENTS],
    pub count: u8,
    pub len: u8,
    pub idx: u8,
    pub responding: bool,
}

// A fresh machine, or the reason why there is none and a state of zeros.
pub fn fresh(clients: u8) -> Made<State>
    ensures { made_by result ≡ fresh_of clients }
{
    if limits::CLIENTS < usize::from(clients) {
        Made {
            state: idle(0),
            verdict: Err(Refusal::Parameter),
        }
    } else {
        Made {
            state: idle(clients),
            verdict: Ok(()),
        }
    }
}

// All idle, slots clear, collecting, nothing gathered.
fn idle(count: u8) -> State
    ensures { result ≡ fresh_state count }
{
    State {
        count,
        ..State::default()
    }
}

// ---- the image: the clients, their slots as one mask, the combiner and what it gathered

// How many bytes a client, the mask with the combiner, and an element take.
const CLIENT: usize = 23;

const COMBINER: usize = 5;

const ELEM: usize = 5;

// The image at the front of the buffer, or nothing where it does not fit; the answer is its length.
pub fn image(s: State, out: &mut [u8]) -> usize
    ensures { Laid out.old 0 (image_bytes s) result out.new }
{
    let clients = within::in_use::<{ limits::CLIENTS }>(s.count);
    let elems = within::in_use::<{ limits::CLIENTS }>(s.len);
    if out.len() < CLIENT * clients + COMBINER + ELEM * elems {
        return 0;
    }
    let a = laid::put_all::<Imaged, Client>(out, 0, &s.clients[..clients]);
    let b = put_combiner(out, a, s);
    laid::put_all::<Imaged, Elem>(out, b, &s.elems[..elems])
}

// How the image has a client and an element.
struct Imaged;

impl Layout<Client> for Imaged {
    ghost LONG = { client_long };

    const LONG: usize = CLIENT;

    ghost bytes = { client_bytes };

    fn put(out: &mut [u8], at: usize, c: Client) -> usize {
        if out.len() < CLIENT {
            return at;
        }
        if out.len() - CLIENT < at {
            return at;
        }
        let p = put_flagged(out, at, c.waiting, c.rid);
        let q = put_message(out, p, c.asked, c.rid, c.req);
        put_message(out, q, c.told, c.rid, c.resp)
    }

    ghost even = { λ c. refl };

    ghost some = { lit< tt };
}

impl Layout<Elem> for Imaged {
    ghost LONG = { elem_long };

    const LONG: usize = ELEM;

    ghost bytes = { elem_bytes };

    fn put(out: &mut [u8], at: usize, e: Elem) -> usize {
        put_flagged(out, at, e.present, e.rid)
    }

    ghost even = { λ e. refl };

    ghost some = { lit< tt };
}

// A flag, and a number behind it.
fn put_flagged(out: &mut [u8], at: usize, flag: bool, x: u32) -> usize
    ensures { Laid out.old at (bool_byte flag ∷ big 4 x) result out.new }
{
    let [a, b, c, d] = x.to_be_bytes();
    rows::put_bytes(out, at, &[u8::from(flag), a, b, c, d])
}

// A request or a response: present, id, payload, absent as zeros.
fn put_message(out: &mut [u8], at: usize, there: bool, rid: u32, load: u32) -> usize
    ensures { Laid out.old at (message_bytes there rid load) result out.new }
{
    let [a, b, c, d] = shown(there, rid).to_be_bytes();
    let [e, f, g, h] = shown(there, load).to_be_bytes();
    rows::put_bytes(out, at, &[u8::from(there), a, b, c, d, e, f, g, h])
}

// A number that is shown only where it is there.
fn shown(there: bool, x: u32) -> u32
    ensures { result ≡ cond there x 0 }
{
    if there { x } else { 0 }
}

fn put_combiner(out: &mut [u8], at: usize, s: State) -> usize
    ensures { Laid out.old at (combiner_bytes s) result out.new }
{
    let [a, b] = mask(s).to_be_bytes();
    rows::put_bytes(out, at, &[a, b, u8::from(s.responding), s.idx, s.len])
}

// The slots, client 0 lowest, packed from the last down.
fn mask(s: State) -> u16
    ensures { result ≡ slots.mask slot_of s.clients }
{
    let mut m: u16 = 0;
    for c in s.clients.iter().rev() {
        m = (m << 1) | u16::from(c.slot);
    }
    m
}
