// What a call on a store does and answers, over any store.
ghost use Rattle.std.specs.Prelude.{◌≡◌};
ghost use Rattle.mailcopy.specs.Performs.{Performs};

use crate::answer::Answer;
use crate::call::StoreCall;
use store::{RangeStore, StoreRefusal};

/// Makes a call on a store and gives its answer, or the store's refusal.
// An arm for each call, alike or not: a closure for those that are would be longer than the arms.
pub fn perform<S: RangeStore>(store: &mut S, call: StoreCall) -> Result<Answer, StoreRefusal>
    ensures room { S.RangeStore.room store.new ≡ S.RangeStore.room store.old }
    ensures outcome { Performs (S.RangeStore.room store.old) (S.RangeStore.model store.old) call (S.RangeStore.model store.new) result }
{
    let answer = match call {
        StoreCall::Put(set, range) => {
            store.put(set, range)?;
            Answer::Done
        }
        StoreCall::Take(set, range) => {
            store.take(set, range)?;
            Answer::Done
        }
        StoreCall::Move(from, to) => {
            store.move_set(from, to);
            Answer::Done
        }
        StoreCall::Clear(set) => {
            store.clear(set);
            Answer::Done
        }
        StoreCall::Query(set, id) => Answer::Test(store.holds(set, id)),
        StoreCall::Next(set, n) => Answer::Next(store.next(set, n)),
        StoreCall::Total => Answer::Count(store.total() as u64),
        StoreCall::Limit => Answer::Count(store.limit() as u64),
    };
    Ok(answer)
}
