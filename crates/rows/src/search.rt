// Where rows stand: binary search on the line of all labels and IDs.
ghost use Rattle.std.specs.Prelude.{◌≡◌, ◌+◌, ◌<◌, ◌≤◌, length};
ghost use Rattle.std.specs.List.Sorted.{IsPartitionPoint};
ghost use Rattle.store.specs.Ranges.{next_range};
ghost use Rattle.rows.specs.Rows.{spot, begins_at, ends_at, ranges};
ghost use Rattle.rows.specs.Tables.{rows_of, Between};

use crate::row::Row;
use crate::table::{Label, Stretch, Table};
use store::COUNTERS;

// How far apart on the line two labels begin: further than all IDs with a gap for each replica.
const LABEL_SPAN: u128 = 0x4_0000_0000_0000_0000;

// Where an ID under a label stands on one line, on which IDs under two labels and IDs of two replicas are never neighbours.
fn spot(label: u8, id: u64) -> u128
    ensures { result ≡ spot label id }
{
    u128::from(label) * LABEL_SPAN + u128::from(id) + u128::from(id / COUNTERS)
}

impl Label {
    /// Where an ID under this label stands.
    pub(crate) fn spot(self, id: u64) -> u128
        ensures { result ≡ spot self.value id }
    {
        spot(self.value, id)
    }

    /// Where the next label begins.
    pub(crate) fn end(self) -> u128
        ensures { result ≡ spot (self.value + 1) 0 }
    {
        spot(self.value + 1, 0)
    }
}

// Two lines for the two ends: the proofs speak in these words.
impl Row {
    fn begins_at(self) -> u128
        ensures { result ≡ begins_at self }
    {
        spot(self.label, self.low)
    }

    fn ends_at(self) -> u128
        ensures { result ≡ ends_at self }
    {
        spot(self.label, self.high)
    }
}

impl Table {
    /// The rows in use.
    pub(crate) fn in_use(&self) -> &[Row]
        ensures { result.now ≡ rows_of self.now }
    {
        &self.memory.places[..self.used]
    }

    /// The rows that reach the spot `from` and begin before the spot `to`.
    #[inline]
    pub(crate) fn between(&self, from: u128, to: u128) -> Stretch
        requires { from ≤ to }
        ensures { Between (rows_of self.now) from to result.from result.to }
    {
        let rows = self.in_use();
        Stretch {
            from: rows.partition_point(|row| row.ends_at() < from),
            to: rows.partition_point(|row| row.begins_at() < to),
        }
    }

    // How many rows end before this spot.
    // It answers what `partition_point` does, by a loop of our own: the library's takes one half or the other without a branch, so that each step waits for
    // the one before, while the branches of this one are foreseen where ranges are asked for in order, as in a walk.
    fn ending_before(&self, at: u128) -> usize
        ensures inside { result ≤ length (rows_of self.now) }
        ensures point { IsPartitionPoint (λ r. ends_at r < at) (λ r. at ≤ ends_at r) (rows_of self.now) result }
    {
        let rows = self.in_use();
        let mut low = 0;
        let mut high = rows.len();
        while low < high {
            let middle = low + (high - low) / 2;
            if rows[middle].ends_at() < at {
                low = middle + 1;
            } else {
                high = middle;
            }
        }
        low
    }

    /// The lowest range under the label whose high end is not below `n`.
    pub(crate) fn next(&self, label: Label, n: u64) -> Option<(u64, u64)>
        ensures { result ≡ next_range (ranges label.value (rows_of self.now)) n }
    {
        let at = label.spot(n);
        let found = self.ending_before(at);
        match self.in_use().get(found) {
            Some(row) if row.label == label.value => Some((row.low, row.high)),
            _ => None,
        }
    }
}
