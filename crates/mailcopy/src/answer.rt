// The answers to the calls of a script, the complaints in place of one, and how they are printed.
ghost use Rattle.std.specs.Prelude.{◌≡◌};
ghost use Rattle.store.specs.Refusals.{listed};
ghost use Rattle.mailcopy.specs.declared.answer.Complaint.TheVariants.{Refused};
ghost use Rattle.mailcopy.specs.declared.answer.Failure.TheVariants as failure;

use std::alloc::AllocError;
use std::fmt;
use store::{Refusal, StoreRefusal};

/// The answer to a call.
#[derive(Clone, Copy, Debug, PartialEq, Eq)]
pub enum Answer {
    Done,
    Test(bool),
    Next(Option<(u64, u64)>),
    Count(u64),
}

impl fmt::Display for Answer {
    ghost use Rattle.std.specs.Prelude.{Some};
    ghost use Rattle.mailcopy.specs.Prints.{answer_text};

    ghost output = { λ x. Some (answer_text x) };

    fn fmt<W: fmt::Write>(&self, f: &mut fmt::Formatter<W>) -> fmt::Result {
        match self {
            Answer::Done => write!(f, "ok"),
            Answer::Test(truth) => write!(f, "ok {truth}"),
            Answer::Next(Some((low, high))) => write!(f, "ok {low} {high}"),
            Answer::Next(None) => write!(f, "ok none"),
            Answer::Count(n) => write!(f, "ok {n}"),
        }
    }
}

/// Why a line of a script has no answer.
#[derive(Clone, Copy, Debug, PartialEq, Eq)]
pub enum Complaint {
    /// A layer refuses the call.
    Refused(Refusal),
    /// The line is no call, or names a set or a range that cannot exist.
    BadCall,
    /// No store has been made yet.
    NoCopy,
}

impl From<StoreRefusal> for Complaint {
    ghost from_gives = { λ e c. c ≡ Refused (listed e) };

    fn from(refusal: StoreRefusal) -> Complaint {
        Complaint::Refused(refusal.into())
    }
}

impl fmt::Display for Complaint {
    ghost use Rattle.std.specs.Prelude.{Some};
    ghost use Rattle.mailcopy.specs.Prints.{complaint_text};

    ghost output = { λ x. Some (complaint_text x) };

    fn fmt<W: fmt::Write>(&self, f: &mut fmt::Formatter<W>) -> fmt::Result {
        match self {
            Complaint::Refused(refusal) => write!(f, "refused {refusal}"),
            Complaint::BadCall => write!(f, "bad call"),
            Complaint::NoCopy => write!(f, "no copy"),
        }
    }
}

/// Why a call gives no answer: a complaint, which is told in place of one, or want of memory.
#[derive(Clone, Copy, Debug, PartialEq, Eq)]
pub enum Failure {
    Complaint(Complaint),
    Memory(AllocError),
}

impl From<Complaint> for Failure {
    ghost from_gives = { λ c f. f ≡ failure.Complaint c };

    fn from(complaint: Complaint) -> Failure {
        Failure::Complaint(complaint)
    }
}

impl From<StoreRefusal> for Failure {
    ghost from_gives = { λ e f. f ≡ failure.Complaint (Refused (listed e)) };

    fn from(refusal: StoreRefusal) -> Failure {
        Failure::Complaint(refusal.into())
    }
}

impl From<AllocError> for Failure {
    ghost from_gives = { λ e f. f ≡ failure.Memory e };

    fn from(error: AllocError) -> Failure {
        Failure::Memory(error)
    }
}
