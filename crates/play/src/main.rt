// Plays a script of calls on a job: reads it on standard input, makes the calls one by one, and prints each answer and what the job holds after it.
#![tactic(auto)]

mod calls;
mod hexadecimal;
mod job;
mod script;

use inputs::read_up_to;
use job::Table;
use script::play_line;

// Of a longer script, this many bytes are read.
const MOST_SCRIPT: u64 = 1 << 20;

fn run(rt: &HostRuntime) -> anyhow::Result<()> {
    let bytes = read_up_to(rt.alloc(), rt.stdin(), MOST_SCRIPT)?;
    let text = std::str::from_utf8(bytes.as_slice())?;
    let mut table = Table::empty(rt.alloc());
    for line in text.lines() {
        play_line(rt, &mut table, line)?;
    }
    Ok(())
}

fn main(rt: HostRuntime) -> anyhow::Result<()> {
    run(&rt)
}
