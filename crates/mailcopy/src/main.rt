// Reads a script of store calls on standard input, one to a line, and prints each with its answer.
#![tactic(auto)]

mod answer;
mod call;
mod perform;
mod session;
mod words;

use session::Session;
use std::io::{BufRead, BufReader, Write};

fn run(rt: &HostRuntime) -> anyhow::Result<()> {
    let heap = rt.alloc();
    let mut session = Session::new();
    for line in BufReader::new(heap, rt.stdin())?.split(heap, b'\n') {
        let line = line?;
        let mut text = Vec::new(heap);
        session.answer_line(heap, line.as_slice(), &mut text)?;
        rt.stdout().write_all(text.as_slice())?;
    }
    Ok(())
}

fn main(rt: HostRuntime) -> anyhow::Result<()> {
    run(&rt)
}
