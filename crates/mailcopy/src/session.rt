// The store that a script works on, and its lines one by one.
ghost use Rattle.std.specs.Prelude.{◌≡◌, None};
ghost use Rattle.mailcopy.specs.Sessions.{made_so_far, Asks, Comes, Line};
ghost use Rattle.mailcopy.specs.declared.call.Call.TheVariants.{MakeRows};

use crate::answer::{Answer, Complaint, Failure};
use crate::call::{Call, StoreCall};
use crate::perform::perform;
use crate::words::{Words, write_words};
use rows::{Row, RowStore};
use std::alloc::{AllocError, Global};
use store::{InMemory, Limit, Memory};

/// What a script has made so far.
#[derive(Drop)]
pub struct Session {
    store: Option<RowStore>,
}

// A line without a word, or whose first word begins with '#'.
fn is_skipped(line: &[u8]) -> bool {
    matches!(Words::of(line).next(), None | Some([b'#', ..]))
}

impl Session {
    /// Nothing is made yet.
    pub fn new() -> Self
        ensures { made_so_far result ≡ None }
    {
        Session { store: None }
    }

    // A store of so many rows in place of what was there, which a refusal leaves. No rows are asked for that no store can have.
    fn make_rows(&mut self, heap: Global, n: u64) -> Result<Answer, Failure>
        ensures { Comes (made_so_far self.old) (MakeRows n) (made_so_far self.new) result }
    {
        let limit = Limit::try_from(n)?;
        let rows = vec![in heap; Row::default(); limit.ranges()]?;
        let memory = Memory::new(rows).unwrap();
        self.store = Some(RowStore::new(memory));
        Ok(Answer::Done)
    }

    // A call on the store that is in use.
    fn ask(&mut self, call: StoreCall) -> Result<Answer, Complaint>
        ensures { Asks (made_so_far self.old) call (made_so_far self.new) result }
    {
        let store = self.store.as_mut().ok_or(Complaint::NoCopy)?;
        Ok(perform(store, call)?)
    }

    fn answer(&mut self, heap: Global, call: Call) -> Result<Answer, Failure>
        ensures { Comes (made_so_far self.old) call (made_so_far self.new) result }
    {
        match call {
            Call::MakeRows(n) => self.make_rows(heap, n),
            Call::Store(call) => Ok(self.ask(call)?),
        }
    }

    /// Adds to `out` what a line of a script prints: its call, the answer or the complaint, and a line's end; nothing for a blank line or a comment.
    pub fn answer_line(
        &mut self,
        heap: Global,
        line: &[u8],
        out: &mut Vec<u8>,
    ) -> Result<(), AllocError>
        ensures { Line (made_so_far self.old) (made_so_far self.new) out.old.items out.new.items result }
    {
        if is_skipped(line) {
            return Ok(());
        }
        let call = match Call::try_from(line) {
            Ok(call) => call,
            Err(complaint) => {
                let told = format!(in heap; " => {complaint}\n")?;
                write_words(line, out)?;
                return out.extend_from_slice(told.as_bytes());
            }
        };
        let told = match self.answer(heap, call) {
            Ok(answer) => format!(in heap; "{call} => {answer}\n")?,
            Err(Failure::Complaint(complaint)) => format!(in heap; "{call} => {complaint}\n")?,
            Err(Failure::Memory(error)) => return Err(error),
        };
        out.extend_from_slice(told.as_bytes())
    }
}
