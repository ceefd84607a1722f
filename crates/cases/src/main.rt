// Replays each file that an argument names, and writes the name and the answer's three lines. In front of each file stand two lengths of two bytes:
// those of the log buffer and of the state buffer that it is replayed with. A file over the largest gets its answer as an input too. A line more tells
// of a byte changed behind what the answer counts.
#![tactic(auto)]

ghost use Rattle.std.specs.Prelude.{◌≡◌, ◌↔◌, All, drop, IsTrue};
ghost use Rattle.std.specs.Io.{ReadsAtMost};

use lines::verdict;
use schedule::answer::Answer;
use schedule::limits;
use std::env::{Env, FillError};
use std::rt::Files;
use std::{fs, io, str};

// what both buffers hold before, and the longest that a case asks for
const PATTERN: u8 = 170;

const LOG: usize = 50000;

const STATE: usize = 4096;

// the longest name that is read
const NAME: usize = 4096;

fn main(rt: HostRuntime) -> io::Result<()> {
    // argument 0 is the program's own name
    for i in 1..usize::MAX {
        let mut name = [0u8; NAME];
        match rt.arg(i, &mut name) {
            Ok(n) => one(&rt, &name[..n])?,
            Err(FillError::TooLong) => eprintln!(rt; "argument: File name too long")?,
            Err(FillError::NotPresent) => break,
        }
    }
    Ok(())
}

// How long the log buffer and the state buffer are that a case is replayed with.
#[derive(Clone, Copy)]
struct Rooms {
    log: usize,
    image: usize,
}

fn one(rt: &(impl Files + Print + Eprint), name: &[u8]) -> io::Result<()> {
    let Ok(name) = str::from_utf8(name) else {
        return eprintln!(rt; "argument: not UTF-8, so that no file can be opened by it");
    };
    let mut head = [0u8; 4];
    // one byte more than a file can tell in its two bytes of length
    let mut file = [0u8; 65539];
    let n = match read_case(rt, name, &mut head, &mut file) {
        Ok(n) => n,
        // a file that cannot be read is told of, and the next one has its turn
        Err(e) => return eprintln!(rt; "{name}: {e}"),
    };
    let rooms = Rooms {
        log: usize::from(rows::get::<u16>(&head, 0)),
        image: usize::from(rows::get::<u16>(&head, 2)),
    };
    println!(rt; "{name}")?;
    answer(rt, replayer::replay, &file[..n], rooms)?;
    if replayer::LARGEST < n {
        println!(rt; "{name} as input")?;
        answer(rt, replayer::replay_input, &file[..n], rooms)?;
    }
    Ok(())
}

// The bytes in front of the file, and the file's own, of which it answers how many there are.
fn read_case(rt: &impl Files, name: &str, head: &mut [u8], file: &mut [u8]) -> io::Result<usize>
    ensures { ReadsAtMost result file.new }
{
    let mut case = fs::open(rt, name)?;
    input::read_full(&mut case, head)?;
    input::read_full(&mut case, file)
}

// What a replayer answers to the file, with buffers of these lengths.
fn answer<F: Fn(&[u8], &mut [u8], &mut [u8]) -> Answer>(
    rt: &impl Print,
    replay: F,
    file: &[u8],
    rooms: Rooms,
) -> io::Result<()>
    requires { F.IsAlwaysCallable replay }
{
    let mut log = [PATTERN; LOG];
    let mut image = [PATTERN; STATE];
    let a = replay(
        file,
        &mut log[..rooms.log.min(LOG)],
        &mut image[..rooms.image.min(STATE)],
    );
    show(rt, a, &log, &image)
}

fn show(rt: &impl Print, a: Answer, log: &[u8], image: &[u8]) -> io::Result<()> {
    let mut text = [0u8; verdict::MOST];
    let k = verdict::put_lines(
        &mut text,
        a,
        &log[..verdict::LOG.min(log.len())],
        &image[..limits::IMAGE.min(image.len())],
    );
    rt.write_all(&text[..k])?;
    if !(kept(log, a.logged) && kept(image, a.imaged)) {
        println!(rt; "changed beyond")?;
    }
    Ok(())
}

// From a place on the buffer is as it was.
fn kept(buffer: &[u8], from: usize) -> bool
    ensures { IsTrue result ↔ All (λ b. b ≡ PATTERN) (drop from buffer.now) }
{
    buffer.len() <= from || buffer[from..].iter().all(|b| *b == PATTERN)
}
