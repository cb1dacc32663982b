// The calls of a workload, and how one is read from a line.
use std::error::Error;
use std::fmt;
use std::str::FromStr;
use store::Range;

/// A call of a workload. All are on one set.
#[derive(Clone, Copy, Debug, PartialEq, Eq)]
pub enum Call {
    Put(Range),
    Take(Range),
    Hold(u64),
    /// A walk by next through the whole set.
    Walk,
    /// Moves to another set and back, so many times, and once more to the other.
    Move(u64),
}

/// A line that is no call, or that names a range that cannot exist.
#[derive(Clone, Copy, Debug, PartialEq, Eq)]
pub struct NoCall;

impl fmt::Display for NoCall {
    ghost use Rattle.std.specs.Prelude.{Some, codes};

    ghost output = { λ _. Some (codes "no call of a workload") };

    fn fmt<W: fmt::Write>(&self, f: &mut fmt::Formatter<W>) -> fmt::Result {
        f.write_str("no call of a workload")
    }
}

impl Error for NoCall {}

fn read_range(ends: &str) -> Option<Range> {
    let (low, high) = ends.split_once(' ')?;
    Range::new(low.parse().ok()?, high.parse().ok()?)
}

fn read_call(line: &str) -> Option<Call> {
    if line == "walk" {
        return Some(Call::Walk);
    }
    match line.split_once(' ')? {
        ("put", ends) => read_range(ends).map(Call::Put),
        ("take", ends) => read_range(ends).map(Call::Take),
        ("hold", id) => id.parse().ok().map(Call::Hold),
        ("move", times) => times.parse().ok().map(Call::Move),
        _ => None,
    }
}

impl FromStr for Call {
    type Err = NoCall;

    fn from_str(line: &str) -> Result<Call, NoCall> {
        read_call(line).ok_or(NoCall)
    }
}
