// A step applied to the state in place: the transition of each of the machine's steps, for the single step and for the replay of a file.
ghost use Rattle.std.specs.Prelude.{◌≡◌, true};
ghost use Rattle.machine.specs.Apply.{InPlace};
ghost use Rattle.schedule.specs.declared.steps.FlatStep.TheVariants.{ClientSend, ClientRecv, CombinerRecv, CombinerSkip, CombinerGoToResponding};
ghost use Rattle.schedule.specs.declared.steps.FlatStep.TheVariants.{CombinerSend, CombinerSendSkip, CombinerGoToCollecting};
ghost use Rattle.flat.specs.Flat.{flat};
ghost use Rattle.flat.specs.Image.{entry_bytes};
ghost use Rattle.flat.specs.Moved.{Indexed};
ghost use Rattle.flat.specs.Running.{runner};
ghost use Rattle.flat.specs.Single.{own, Quietly};
ghost use Rattle.flat.specs.Sound.{sound};

use super::entry::Entry;
use super::state::{Client, State};
use super::{client, combiner, entry, sound, state};
use machine::refusal::Refusal;
use machine::within;
use schedule::kinds::Kind;
use schedule::limits;
use schedule::read::Spelled;
use schedule::stepped::Stepped;
use schedule::steps::{FlatStep, Step};

impl Stepped for State {
    type Own = FlatStep;

    ghost runner = { runner };

    ghost state = { λ s. s };

    ghost step = { λ x. x };

    ghost own_of = { own };

    ghost sound = { sound };

    fn kind() -> Kind {
        Kind::Flat
    }

    fn own(x: Step) -> Option<FlatStep> {
        match x {
            Step::Flat(own) => Some(own),
            _ => None,
        }
    }

    #[inline(always)]
    fn tagged(tag: u8, numbers: &[u8]) -> FlatStep {
        <FlatStep as Spelled>::tagged(tag, numbers)
    }

    #[inline(always)]
    fn size(x: FlatStep) -> usize {
        x.size()
    }

    fn is_sound(&self) -> bool {
        sound::is_sound(*self)
    }

    #[inline(always)]
    fn apply(&mut self, x: FlatStep, log: &mut [u8], at: usize) -> Result<usize, Refusal> {
        let mut next = at;
        match x {
            FlatStep::ClientSend { j, rid, req } => self.client_send(j, rid, req)?,
            FlatStep::ClientRecv { j } => next = self.client_recv(j, log, at)?,
            FlatStep::CombinerRecv => self.combiner_recv()?,
            FlatStep::CombinerSkip => self.combiner_skip()?,
            FlatStep::CombinerGoToResponding => self.combiner_go_to_responding()?,
            FlatStep::CombinerSend { rid, resp } => self.combiner_send(rid, resp)?,
            FlatStep::CombinerSendSkip => self.combiner_send_skip()?,
            FlatStep::CombinerGoToCollecting => self.combiner_go_to_collecting()?,
        }
        Ok(next)
    }

    fn image(&self, out: &mut [u8]) -> usize {
        state::image(*self, out)
    }

    fn carries() {}

    fn tells(&self) {}
}

// What each step does to a sound state; a refusal leaves it as it was.
impl State {
    // ---- the clients' steps

    // The index of client j in the row.
    #[inline]
    fn index_of(&self, j: u8) -> Result<usize, Refusal>
        ensures { Indexed self.now j result }
    {
        within::inside(self.count, j)?;
        within::place::<{ limits::CLIENTS }>(j)
    }

    #[inline]
    fn client_send(&mut self, j: u8, rid: u32, req: u32) -> Result<(), Refusal>
        ensures { Quietly self.old (ClientSend j rid req) result self.new }
    {
        let i = self.index_of(j)?;
        self.clients[i] = client::client_send(self.clients[i], rid, req)?;
        Ok(())
    }

    // The one step that logs.
    #[inline]
    fn client_recv(&mut self, j: u8, log: &mut [u8], at: usize) -> Result<usize, Refusal>
        ensures { sound self.old ≡ true → InPlace flat entry_bytes self.old (ClientRecv j) log.old at result self.new log.new }
    {
        let i = self.index_of(j)?;
        let c = self.clients[i];
        self.clients[i] = client::client_recv(c)?;
        let Client { rid, resp, .. } = c;
        Ok(entry::put_entry(log, at, Entry::Answer { j, rid, resp }))
    }

    // ---- the combiner's steps

    #[inline]
    fn combiner_recv(&mut self) -> Result<(), Refusal>
        ensures { Quietly self.old CombinerRecv result self.new }
    {
        combiner::may_gather(self.responding, self.len, self.count)?;
        let i = within::place::<{ limits::CLIENTS }>(self.len)?;
        let gathered = combiner::combiner_recv(self.clients[i])?;
        self.clients[i] = gathered.client;
        self.elems[i] = gathered.elem;
        self.len += 1;
        Ok(())
    }

    #[inline]
    fn combiner_skip(&mut self) -> Result<(), Refusal>
        ensures { Quietly self.old CombinerSkip result self.new }
    {
        combiner::may_gather(self.responding, self.len, self.count)?;
        let i = within::place::<{ limits::CLIENTS }>(self.len)?;
        self.elems[i] = combiner::no_elem();
        self.len += 1;
        Ok(())
    }

    #[inline]
    fn combiner_go_to_responding(&mut self) -> Result<(), Refusal>
        ensures { Quietly self.old CombinerGoToResponding result self.new }
    {
        combiner::may_respond(self.responding, self.len, self.count)?;
        self.idx = 0;
        self.responding = true;
        Ok(())
    }

    #[inline]
    fn combiner_send(&mut self, rid: u32, resp: u32) -> Result<(), Refusal>
        ensures { Quietly self.old (CombinerSend rid resp) result self.new }
    {
        combiner::may_answer(self.responding, self.idx, self.count)?;
        let i = within::place::<{ limits::CLIENTS }>(self.idx)?;
        self.clients[i] = combiner::combiner_send(self.clients[i], self.elems[i], rid, resp)?;
        self.idx += 1;
        Ok(())
    }

    #[inline]
    fn combiner_send_skip(&mut self) -> Result<(), Refusal>
        ensures { Quietly self.old CombinerSendSkip result self.new }
    {
        combiner::may_answer(self.responding, self.idx, self.count)?;
        let i = within::place::<{ limits::CLIENTS }>(self.idx)?;
        combiner::may_skip(self.elems[i])?;
        self.idx += 1;
        Ok(())
    }

    #[inline]
    fn combiner_go_to_collecting(&mut self) -> Result<(), Refusal>
        ensures { Quietly self.old CombinerGoToCollecting result self.new }
    {
        combiner::may_collect(self.responding, self.idx, self.count)?;
        self.elems = [combiner::no_elem(); limits::CLIENTS];
        self.len = 0;
        self.idx = 0;
        self.responding = false;
        Ok(())
    }
}
