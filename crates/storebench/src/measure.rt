// One run of a workload over a new store, by the clock.
use crate::perform::Digest;
use crate::workload::Workload;
use std::io;
use std::time::Instant;
use store::{InMemory, Memory};

const LIMIT: usize = 65_535;

/// What a run gave: the digest of its answers, and how long the timed calls took.
#[derive(Clone, Copy)]
pub struct Run {
    pub answers: Digest,
    pub nanoseconds: u128,
}

// A new store of the greatest limit.
fn new_store<S: InMemory>(rt: &HostRuntime) -> io::Result<S> {
    let places = vec![in rt.alloc(); S::Place::default(); LIMIT]?;
    Ok(S::new(Memory::new(places).unwrap()))
}

/// A run over a new store of a make, and the store as it was then.
pub fn measure<S: InMemory + Drop>(rt: &HostRuntime, workload: &Workload) -> io::Result<(S, Run)> {
    let mut store: S = new_store(rt)?;
    let mut answers = Digest::EMPTY;
    answers.perform_all(&mut store, workload.before.as_slice());
    let start = Instant::now(rt)?;
    answers.perform_all(&mut store, workload.timed.as_slice());
    let nanoseconds = start.elapsed(rt)?.as_nanos();
    let run = Run {
        answers,
        nanoseconds,
    };
    Ok((store, run))
}
