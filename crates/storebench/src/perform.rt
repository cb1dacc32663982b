// The calls of a workload on a store, over any store, and the digest of their answers.
ghost use Rattle.std.specs.Prelude.{◌≡◌, ◌*◌, ◌%◌, ◌^◌, bit_xor};

use crate::call::Call;
use std::fmt;
use store::{RangeStore, SetName};

// The set that the workloads fill, and the one that it is moved to.
const SET: SetName = SetName::KeptGiven;

const OTHER: SetName = SetName::KeptSeen;

/// A digest of values, one after another.
#[derive(Clone, Copy, Debug, PartialEq, Eq)]
pub struct Digest {
    value: u64,
}

impl fmt::Display for Digest {
    ghost use Rattle.std.specs.Prelude.{Some, decimal};

    ghost output = { λ d. Some (decimal d.value) };

    fn fmt<W: fmt::Write>(&self, f: &mut fmt::Formatter<W>) -> fmt::Result {
        self.value.fmt(f)
    }
}

impl Digest {
    /// The digest of no values.
    pub const EMPTY: Digest = Digest { value: 1 };

    // One value more.
    fn add(&mut self, value: u64)
        ensures { self.new.value ≡ bit_xor self.old.value value * 1099511628211 % 2 ^ 64 }
    {
        self.value = (self.value ^ value).wrapping_mul(0x100_0000_01b3);
    }

    // Every range of a set more, by nexts from 0 on, each from right behind the range before, until there is none.
    // Within its callers, so that a digest of theirs can stay in a register.
    #[inline(always)]
    fn add_ranges<S: RangeStore>(&mut self, store: &S, set: SetName) {
        let mut n: u64 = 0;
        while let Some((low, high)) = store.next(set, n) {
            self.add(low);
            self.add(high);
            let Some(behind) = high.checked_add(1) else {
                break;
            };
            n = behind;
        }
        self.add(0);
    }

    // Makes a call, and adds its answer. Put and take differ in the call alone, and a closure for it would be longer than the arm.
    fn perform<S: RangeStore>(&mut self, store: &mut S, call: Call) {
        match call {
            Call::Put(range) => self.add(u64::from(store.put(SET, range).is_ok())),
            Call::Take(range) => self.add(u64::from(store.take(SET, range).is_ok())),
            Call::Hold(n) => self.add(u64::from(store.holds(SET, n))),
            Call::Walk => self.add_ranges(store, SET),
            Call::Move(times) => {
                for _ in 0..times {
                    store.move_set(SET, OTHER);
                    store.move_set(OTHER, SET);
                }
                store.move_set(SET, OTHER);
            }
        }
    }

    /// Makes calls, and adds their answers.
    pub fn perform_all<S: RangeStore>(&mut self, store: &mut S, calls: &[Call]) {
        let mut digest = *self;
        for call in calls {
            digest.perform(store, *call);
        }
        *self = digest;
    }

    /// The total more, and every range of every set.
    pub fn add_all_ranges<S: RangeStore>(&mut self, store: &S) {
        self.add(store.total() as u64);
        for set in SetName::ALL {
            self.add_ranges(store, set);
        }
    }
}
