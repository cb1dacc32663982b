// A workload, and how it is read from its text.
use crate::call::Call;
use std::io;
use std::io::{BufRead, BufReader, ErrorKind};

/// The calls that come before, and those that are timed.
#[derive(Drop)]
pub struct Workload {
    pub before: Vec<Call>,
    pub timed: Vec<Call>,
}

impl Workload {
    // Adds what a line says: one more call to be timed, or that all so far come before. Other lines are refused.
    fn add(&mut self, line: &str) -> io::Result<()> {
        if line == "time" {
            self.before.append(&mut self.timed)?;
            return Ok(());
        }
        match line.parse::<Call>() {
            Ok(call) => Ok(self.timed.push(call)?),
            Err(_) => Err(io::Error::new(ErrorKind::InvalidData, line)),
        }
    }

    /// The workload on standard input: a call to a line, and a line `time` between those before and those that are timed.
    pub fn read(rt: &HostRuntime) -> io::Result<Workload> {
        let heap = rt.alloc();
        let mut workload = Workload {
            before: Vec::new(heap),
            timed: Vec::new(heap),
        };
        for line in BufReader::new(heap, rt.stdin())?.lines(heap) {
            workload.add(line?.as_str())?;
        }
        Ok(workload)
    }
}
