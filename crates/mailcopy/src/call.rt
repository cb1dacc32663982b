// The calls of a script: reading them from a line, and printing them in normal form.
ghost use Rattle.std.specs.Prelude.{◌≡◌, MatchResult};
ghost use Rattle.mailcopy.specs.declared.answer.Complaint.TheVariants.{BadCall};

use crate::answer::Complaint;
use crate::words::Words;
use std::fmt;
use store::{Range, SetName};
use text::read_decimal;

/// A call on a store.
#[derive(Clone, Copy, Debug, PartialEq, Eq)]
pub enum StoreCall {
    Put(SetName, Range),
    Take(SetName, Range),
    Move(SetName, SetName),
    Clear(SetName),
    Query(SetName, u64),
    Next(SetName, u64),
    Total,
    Limit,
}

/// A call of a script.
#[derive(Clone, Copy, Debug, PartialEq, Eq)]
pub enum Call {
    MakeRows(u64),
    Store(StoreCall),
}

// What a call is read from, word by word.
impl Words<'_> {
    fn number(&mut self) -> Option<u64> {
        read_decimal(self.next()?)
    }

    fn set(&mut self) -> Option<SetName> {
        SetName::try_from(self.number()?).ok()
    }

    fn range(&mut self) -> Option<Range> {
        Range::new(self.number()?, self.number()?)
    }

    fn rows(&mut self) -> Option<u64> {
        match self.next()? {
            b"rows" => self.number(),
            _ => None,
        }
    }

    fn store_call(&mut self, name: &[u8]) -> Option<StoreCall> {
        let call = match name {
            b"put" => StoreCall::Put(self.set()?, self.range()?),
            b"take" => StoreCall::Take(self.set()?, self.range()?),
            b"move" => StoreCall::Move(self.set()?, self.set()?),
            b"clear" => StoreCall::Clear(self.set()?),
            b"query" => StoreCall::Query(self.set()?, self.number()?),
            b"next" => StoreCall::Next(self.set()?, self.number()?),
            b"total" => StoreCall::Total,
            b"limit" => StoreCall::Limit,
            _ => return None,
        };
        Some(call)
    }

    fn call(&mut self) -> Option<Call> {
        let call = match self.next()? {
            b"make" => Call::MakeRows(self.rows()?),
            name => Call::Store(self.store_call(name)?),
        };
        self.next().is_none().then_some(call)
    }
}

/// The call that a line is; a bad call if it is none, or names a set or a range that cannot exist.
impl TryFrom<&[u8]> for Call {
    type Error = Complaint;

    ghost try_from_gives = { λ _ r. MatchResult r (λ _. Unit {0}) (λ c. c ≡ BadCall) };

    fn try_from(line: &[u8]) -> Result<Call, Complaint> {
        Words::of(line).call().ok_or(Complaint::BadCall)
    }
}

impl fmt::Display for StoreCall {
    ghost use Rattle.std.specs.Prelude.{Some};
    ghost use Rattle.mailcopy.specs.Prints.{store_call_text};

    ghost output = { λ x. Some (store_call_text x) };

    fn fmt<W: fmt::Write>(&self, f: &mut fmt::Formatter<W>) -> fmt::Result {
        match self {
            StoreCall::Put(set, range) => write!(f, "put {} {range}", set.number()),
            StoreCall::Take(set, range) => write!(f, "take {} {range}", set.number()),
            StoreCall::Move(from, to) => write!(f, "move {} {}", from.number(), to.number()),
            StoreCall::Clear(set) => write!(f, "clear {}", set.number()),
            StoreCall::Query(set, id) => write!(f, "query {} {id}", set.number()),
            StoreCall::Next(set, n) => write!(f, "next {} {n}", set.number()),
            StoreCall::Total => write!(f, "total"),
            StoreCall::Limit => write!(f, "limit"),
        }
    }
}

/// A call in normal form: one space between words, numbers in decimal without leading zeros.
impl fmt::Display for Call {
    ghost use Rattle.std.specs.Prelude.{Some};
    ghost use Rattle.mailcopy.specs.Prints.{call_text};

    ghost output = { λ x. Some (call_text x) };

    fn fmt<W: fmt::Write>(&self, f: &mut fmt::Formatter<W>) -> fmt::Result {
        match self {
            Call::MakeRows(n) => write!(f, "make rows {n}"),
            Call::Store(call) => write!(f, "{call}"),
        }
    }
}
