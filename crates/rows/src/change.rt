// A range put under a label or taken from under it, and a label cleared.
ghost use Rattle.std.specs.Prelude.{◌≡◌, None, ◌+◌, ◌-◌, ◌<◌, min, max, [], length, nat_lt, option_to_list, slice_index_or};
ghost use Rattle.store.specs.Ranges.{with_range, without_range};
ghost use Rattle.rows.specs.declared.row.Row.{Row as RowT};
ghost use Rattle.rows.specs.Rows.{ranges};
ghost use Rattle.rows.specs.Tables.{rows_of, maybe, Becomes, BecomesIfItFits};

use crate::row::Row;
use crate::table::{Label, Table};
use store::{Range, StoreRefusal};

impl Label {
    // A row under this label, from its lowest and its highest ID.
    fn row(self, ends: (u64, u64)) -> Row
        ensures { result ≡ record { label = self.value; low = ends.0; high = ends.1 } }
    {
        Row {
            label: self.value,
            low: ends.0,
            high: ends.1,
        }
    }
}

// One row for the range and the rows that it meets.
fn joined(label: Label, range: Range, met: &[Row]) -> Row
    ensures alone { length met.now ≡ 0 → result ≡ record { label = label.value; low = range.low; high = range.high } }
    ensures whole { (d : RowT) → 0 < length met.now → result ≡ record { label = label.value; low = min range.low (slice_index_or met.now 0 d).low; high = max range.high (slice_index_or met.now (length met.now - 1) d).high } }
{
    match (met.first(), met.last()) {
        (Some(first), Some(last)) => label.row(range.joined_with(first.low, last.high)),
        _ => label.row((range.low(), range.high())),
    }
}

// What the range leaves below it of the rows that it meets.
fn part_below(label: Label, range: Range, met: &[Row]) -> Option<Row>
    ensures none { length met.now ≡ 0 → result ≡ None }
    ensures some { (d : RowT) → 0 < length met.now → option_to_list result ≡ maybe (nat_lt (slice_index_or met.now 0 d).low range.low) (record { label = label.value; low = (slice_index_or met.now 0 d).low; high = range.low - 1 }) }
{
    Some(label.row(range.leaves_below(met.first()?.low)?))
}

// What the range leaves above it of the rows that it meets.
fn part_above(label: Label, range: Range, met: &[Row]) -> Option<Row>
    ensures none { length met.now ≡ 0 → result ≡ None }
    ensures some { (d : RowT) → 0 < length met.now → option_to_list result ≡ maybe (nat_lt range.high (slice_index_or met.now (length met.now - 1) d).high) (record { label = label.value; low = range.high + 1; high = (slice_index_or met.now (length met.now - 1) d).high }) }
{
    Some(label.row(range.leaves_above(met.last()?.high)?))
}

impl Table {
    /// Puts the range's IDs under the label; refused as full where that takes more rows than there are.
    pub(crate) fn put(&mut self, label: Label, range: Range) -> Result<(), StoreRefusal>
        ensures { BecomesIfItFits self.old self.new label.value (with_range range.low range.high (ranges label.value (rows_of self.old))) result }
    {
        let met = self.between(label.spot(range.low()) - 1, label.spot(range.high()) + 2);
        let row = joined(label, range, &self.in_use()[met.from..met.to]);
        self.replace_if_it_fits(met, Some(row), None)
    }

    /// Takes the range's IDs from under the label; refused as full where that takes more rows than there are.
    pub(crate) fn take(&mut self, label: Label, range: Range) -> Result<(), StoreRefusal>
        ensures { BecomesIfItFits self.old self.new label.value (without_range range.low range.high (ranges label.value (rows_of self.old))) result }
    {
        let met = self.between(label.spot(range.low()), label.spot(range.high()) + 1);
        let rows = &self.in_use()[met.from..met.to];
        let below = part_below(label, range, rows);
        let above = part_above(label, range, rows);
        self.replace_if_it_fits(met, below, above)
    }

    /// Takes all from under the label.
    pub(crate) fn clear(&mut self, label: Label)
        ensures { Becomes self.old self.new label.value [] }
    {
        let met = self.between(label.spot(0), label.end());
        self.replace(met, &[]);
    }
}
