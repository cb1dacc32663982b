// Times the calls of a workload on a store: STORE and RUNS are its arguments, and the workload is on standard input.
#![tactic(auto)]

mod call;
mod measure;
mod perform;
mod workload;

use cells::CellStore;
use measure::measure;
use perform::Digest;
use rows::RowStore;
use std::{env, io};
use store::InMemory;
use workload::Workload;

// A first run, and the digest of its answers; prints that digest with all ranges after the run.
fn report_digest<S: InMemory + Drop>(rt: &HostRuntime, workload: &Workload) -> io::Result<Digest> {
    let (store, first) = measure::<S>(rt, workload)?;
    let mut digest = first.answers;
    digest.add_all_ranges(&store);
    println!(rt; "digest {digest}")?;
    Ok(first.answers)
}

// The digest of a first run, and then the nanoseconds of each further one, which has to answer the same.
fn report<S: InMemory + Drop>(rt: &HostRuntime, workload: &Workload, runs: u32) -> io::Result<()> {
    let answers = report_digest::<S>(rt, workload)?;
    for _ in 0..runs {
        let (_, run) = measure::<S>(rt, workload)?;
        if run.answers != answers {
            return Err(io::Error::other("two runs answered differently"));
        }
        println!(rt; "nanoseconds {}", run.nanoseconds)?;
    }
    Ok(())
}

fn usage() -> io::Error {
    io::Error::other("usage: storebench rows|cells RUNS < WORKLOAD")
}

fn start(rt: &HostRuntime) -> io::Result<()> {
    let words: Vec<String> = env::args(rt)?.collect(rt.alloc())?;
    let [_, store, runs] = words.as_slice() else {
        return Err(usage());
    };
    let Ok(runs) = runs.as_str().parse::<u32>() else {
        return Err(usage());
    };
    match store.as_str() {
        "rows" => report::<RowStore>(rt, &Workload::read(rt)?, runs),
        "cells" => report::<CellStore>(rt, &Workload::read(rt)?, runs),
        _ => Err(usage()),
    }
}

fn main(rt: HostRuntime) -> io::Result<()> {
    start(&rt)
}
