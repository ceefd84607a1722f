// Reads a schedule from standard input and writes the answer to it: three lines, verdict, log and state.
#![tactic(auto)]

use lines::verdict;
use schedule::limits;
use std::io;

fn main(rt: HostRuntime) -> io::Result<()> {
    // one byte more than the largest file has: what lies beyond it is never read
    let mut file = [0u8; replayer::LARGEST + 1];
    let n = input::read_full(&mut rt.stdin(), &mut file)?;
    let mut log = [0u8; verdict::LOG];
    let mut image = [0u8; limits::IMAGE];
    let answer = replayer::replay_input(&file[..n], &mut log, &mut image);
    let mut text = [0u8; verdict::MOST];
    let m = verdict::put_lines(&mut text, answer, &log, &image);
    rt.write_all(&text[..m])
}
