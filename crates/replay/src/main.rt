// Replays cases: reads one case a line from standard input, cuts each page into cells and prints what was cut.
#![tactic(auto)]

mod answer;
mod case;
mod cells;
mod lines;
mod numbers;

use std::io;
use std::io::Read;

fn main(rt: HostRuntime) -> io::Result<()> {
    let mut input = Vec::new(rt.alloc());
    rt.stdin().read_to_end(&mut input)?;
    lines::replay_all(&rt, input.as_slice())
}
