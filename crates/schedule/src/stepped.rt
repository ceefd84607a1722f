// A machine whose steps are applied in place, and what is made of that for every machine alike: the single step on any state, and the replay of a file.
ghost use Rattle.std.specs.Prelude.{◌≡◌, ◌*◌, ◌≤◌, Bool, true, length, MatchOption};
ghost use Rattle.std.proofs.Math.Option.{Option as OptionOf, none, some};
ghost use Rattle.rows.specs.Stores.{Laid};
ghost use Rattle.machine.specs.Apply.{InPlace};
ghost use Rattle.machine.specs.Single.{Singled, told, bytes_logged};
ghost use Rattle.machine.specs.Refusals.{verdict_code};
ghost use Rattle.schedule.specs.declared.steps.Step as any_step;
ghost use Rattle.schedule.specs.Language.{step_at, size_of, tagged_at};
ghost use Rattle.schedule.specs.Running.{Runner, Runnable, Ended, Counts, left_by, rest_run, rest_tested};
ghost use Rattle.schedule.specs.Answers.{Leaves};
ghost use Rattle.schedule.specs.Kinds.{number};
ghost use Rattle.schedule.specs.Carries.{Carries, Tells, stepper_of, logged_at, Sized};

use super::answer::Answer;
use super::kinds::Kind;
use super::steps::Step;
use super::{answer, count, limits, read};
use machine::refusal::Refusal;
use machine::{refusal, single};

pub trait Stepped: Copy {
    // the machine's own steps
    type Own: Copy;

    // the definition of the machine with its files
    ghost runner: { Runner };

    // what a state and a step stand for in it
    ghost state: { Self → runner.machine.State };

    ghost step: { Self.Own → runner.machine.Step };

    // its steps among those of all kinds
    ghost own_of: { any_step.Step → OptionOf runner.machine.Step };

    // the test of a made-up state
    ghost sound: { runner.machine.State → Bool };

    // The machine's kind.
    fn kind() -> Kind
        ensures { number result ≡ runner.language.kind };

    // A step of any kind, if it is the machine's own.
    fn own(x: Step) -> Option<Self::Own>
        ensures { MatchOption result (own_of x ≡ none) (λ y. own_of x ≡ some (step y)) };

    // The step of a tag, from the bytes behind it.
    fn tagged(tag: u8, numbers: &[u8]) -> Self::Own
        ensures { step result ≡ tagged_at runner.language numbers.now tag 0 };

    // The step whose length byte stands at a place of a file.
    fn read(file: &[u8], at: usize) -> Self::Own
        ensures { step result ≡ step_at runner.language file.now at }
    {
        let (tag, numbers) = read::tag_at(file, at);
        Self::tagged(tag, numbers)
    }

    // How many bytes of a file a step takes, its length byte among them.
    fn size(x: Self::Own) -> usize
        ensures { result ≡ size_of runner.language (step x) };

    // The test of a made-up state.
    fn is_sound(&self) -> bool
        ensures { result ≡ sound (state self.now) };

    // A step on a sound state, its entries into the log from a place on; the answer is the place behind them. What is refused changes nothing.
    fn apply(&mut self, x: Self::Own, log: &mut [u8], at: usize) -> Result<usize, Refusal>
        ensures { sound (state self.old) ≡ true → InPlace runner.machine runner.bytes (state self.old) (step x) log.old at result (state self.new) log.new };

    // The image at the front of the buffer, or nothing where it does not fit; the answer is its length.
    fn image(&self, out: &mut [u8]) -> usize
        ensures { Laid out.old 0 (runner.image (state self.now)) result out.new };

    // What the laws of a replay ask of the machine and its language, and what its test means. Nothing is run: what these promise is the point.
    fn carries()
        ensures { Carries runner };

    fn tells(&self)
        ensures { Tells runner sound (state self.now) };
}

// ---- the single step

// One step on any state: a step of another kind is 6, a log buffer too short 8, a state that is not sound 10, then the machine's own tests.
pub fn single<M: Stepped>(s: M, x: Step, log: &mut [u8]) -> single::Answer<M>
    ensures { Singled (stepper_of M.runner M.own_of M.sound) (M.state s) x log.old (told (M.state result.state) (bytes_logged result.logged) (verdict_code result.logged)) log.new }
{
    let mut state = s;
    let logged = tried(&mut state, x, log);
    single::Answer { state, logged }
}

fn tried<M: Stepped>(s: &mut M, x: Step, log: &mut [u8]) -> Result<usize, Refusal>
    ensures { Singled (stepper_of M.runner M.own_of M.sound) (M.state s.old) x log.old (told (M.state s.new) (bytes_logged result) (verdict_code result)) log.new }
{
    let Some(own) = M::own(x) else {
        return Err(Refusal::Malformed);
    };
    if log.len() < limits::ENTRY {
        return Err(Refusal::Room);
    }
    if !s.is_sound() {
        return Err(Refusal::Unsound);
    }
    M::carries();
    s.apply(own, log, 0)
}

// ---- the replay of a file

// What a run leaves beside the state: the verdict, the index of the step that stopped it or the number of steps, and how far the log is written.
#[derive(Clone, Copy)]
struct Ran {
    place: usize,
    logged: usize,
    verdict: Result<(), Refusal>,
}

// The next n steps of a file on a state that stays in place, their entries into the log from `used` on.
fn run<M: Stepped>(
    file: &[u8],
    from: usize,
    n: usize,
    s: &mut M,
    log: &mut [u8],
    used: usize,
) -> Ran
    requires { Runnable M.runner file.now from n (M.state s.old) used (length log.old) }
    ensures { Ended M.runner file.now from n (M.state s.old) log.old used (left_by M.runner (verdict_code result.verdict) result.place (M.state s.new) log.new result.logged) }
{
    M::carries();
    s.tells();
    let mut at = from;
    let mut k: usize = 0;
    let mut w = used;
    loop {
        if k == n {
            break Ran {
                place: k,
                logged: w,
                verdict: Ok(()),
            };
        }
        let (tag, numbers) = read::tag_at(file, at);
        match turn(s, tag, numbers, log, w) {
            Ok((size, next)) => {
                w = next;
                at += size;
                k += 1;
            }
            Err(why) => {
                break Ran {
                    place: k,
                    logged: w,
                    verdict: Err(why),
                };
            }
        }
    }
}

// The step of a tag, from the bytes behind it, applied in place: its size, and the place behind its entries. Each tag has an arm of its own, in which it
// is known: so the compiler tells the steps apart once, here, and not again where the step is applied and where its size is asked for. Groups of at most
// three are told apart by tests, which cost less than a jump through a table.
fn turn<M: Stepped>(
    s: &mut M,
    tag: u8,
    numbers: &[u8],
    log: &mut [u8],
    at: usize,
) -> Result<(usize, usize), Refusal>
    ensures applied { M.sound (M.state s.old) ≡ true → InPlace M.runner.machine M.runner.bytes (M.state s.old) (tagged_at M.runner.language numbers.now tag 0) log.old at (logged_at result) (M.state s.new) log.new }
    ensures sized { Sized (size_of M.runner.language (tagged_at M.runner.language numbers.now tag 0)) result }
{
    if tag < 4 {
        return match tag {
            1 => applied(s, M::tagged(1, numbers), log, at),
            2 => applied(s, M::tagged(2, numbers), log, at),
            3 => applied(s, M::tagged(3, numbers), log, at),
            _ => applied(s, M::tagged(tag, numbers), log, at),
        };
    }
    if tag < 7 {
        return match tag {
            4 => applied(s, M::tagged(4, numbers), log, at),
            5 => applied(s, M::tagged(5, numbers), log, at),
            _ => applied(s, M::tagged(tag, numbers), log, at),
        };
    }
    match tag {
        7 => applied(s, M::tagged(7, numbers), log, at),
        _ => applied(s, M::tagged(tag, numbers), log, at),
    }
}

// A step applied in place: its size, and the place behind its entries.
#[inline(always)]
fn applied<M: Stepped>(
    s: &mut M,
    x: M::Own,
    log: &mut [u8],
    at: usize,
) -> Result<(usize, usize), Refusal>
    ensures applied { M.sound (M.state s.old) ≡ true → InPlace M.runner.machine M.runner.bytes (M.state s.old) (M.step x) log.old at (logged_at result) (M.state s.new) log.new }
    ensures sized { Sized (size_of M.runner.language (M.step x)) result }
{
    let next = s.apply(x, log, at)?;
    Ok((M::size(x), next))
}

// The rest of a file from a place on, replayed from any state: one that is not sound is 10, then its steps are counted and the room is tested.
pub fn rest<M: Stepped>(
    file: &[u8],
    from: usize,
    start: M,
    log: &mut [u8],
    image: &mut [u8],
) -> Answer
    ensures { Leaves (rest_tested M.runner M.sound (M.state start) file.now from log.old image.old) result log.new image.new }
{
    if !start.is_sound() {
        return answer::of_refusal(Refusal::Unsound, 0);
    }
    M::carries();
    start.tells();
    match count::count(M::kind().byte(), file, from) {
        Err(fault) => Answer::from(fault),
        Ok(n) => replayed(file, from, n, start, log, image),
    }
}

// n steps that are known to stand there: the room tested, then run.
fn replayed<M: Stepped>(
    file: &[u8],
    from: usize,
    n: usize,
    start: M,
    log: &mut [u8],
    image: &mut [u8],
) -> Answer
    requires counts { Counts M.runner.language.kind file.now from n }
    requires good { M.runner.Good (M.state start) }
    ensures { Leaves (rest_run M.runner (M.state start) file.now from log.old image.old) result log.new image.new }
{
    M::carries();
    if log.len() < n * limits::ENTRY {
        return answer::of_refusal(Refusal::Room, 0);
    }
    if image.len() < limits::IMAGE {
        return answer::of_refusal(Refusal::Room, 0);
    }
    let mut state = start;
    let ran = run(file, from, n, &mut state, log, 0);
    Answer {
        place: ran.place,
        logged: ran.logged,
        imaged: state.image(image),
        code: refusal::code_of(ran.verdict),
    }
}
