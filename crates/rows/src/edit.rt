// Some of the rows in use give way to others.
// That a stretch ends within them is of the stretch and the table at one moment, so each function asks it.
ghost use Rattle.std.specs.Prelude.{◌≡◌, ◌+◌, ◌-◌, ◌<◌, ◌≤◌, ◌++◌, length, take, vec_len, option_to_list};
ghost use Rattle.rows.specs.Rows.{Rising};
ghost use Rattle.rows.specs.Tables.{rows_of, room_of, spliced, Holds, HoldsIfItFits};

use crate::row::Row;
use crate::table::{Stretch, Table};
use store::StoreRefusal;

// Of the first `used` rows those of the stretch give way to `new`; the others move only if the number changes.
#[inline]
fn splice(rows: &mut [Row], used: usize, gone: Stretch, new: &[Row])
    requires to { gone.to ≤ used }
    requires used { used ≤ length rows.old }
    requires room { gone.from + length new.now + (used - gone.to) ≤ length rows.old }
    ensures len { length rows.new ≡ length rows.old }
    ensures items { take (gone.from + length new.now + (used - gone.to)) rows.new ≡ spliced gone.from gone.to new.now (take used rows.old) }
{
    let end = gone.from + new.len();
    if end != gone.to {
        rows.copy_within(gone.to..used, end);
    }
    rows[gone.from..end].copy_from_slice(new);
}

impl Table {
    // The rows of the stretch give way to `new`.
    #[inline]
    pub(crate) fn replace(&mut self, gone: Stretch, new: &[Row])
        requires to { gone.to ≤ self.old.used }
        requires room { gone.from + length new.now + (self.old.used - gone.to) ≤ room_of self.old }
        requires rising { Rising 0 (spliced gone.from gone.to new.now (rows_of self.old)) }
        ensures { Holds self.old self.new (spliced gone.from gone.to new.now (rows_of self.old)) }
    {
        splice(&mut self.memory.places, self.used, gone, new);
        self.used = gone.from + new.len() + (self.used - gone.to);
    }

    // The rows of the stretch give way to up to two; refused where there would be more rows than there are.
    // Within its callers, of which a put knows how many rows it has: a copy of one row is three moves there, and no call.
    #[inline(always)]
    pub(crate) fn replace_if_it_fits(
        &mut self,
        gone: Stretch,
        below: Option<Row>,
        above: Option<Row>,
    ) -> Result<(), StoreRefusal>
        requires to { gone.to ≤ self.old.used }
        requires rising { Rising 0 (spliced gone.from gone.to (option_to_list below ++ option_to_list above) (rows_of self.old)) }
        ensures { HoldsIfItFits self.old self.new (spliced gone.from gone.to (option_to_list below ++ option_to_list above) (rows_of self.old)) result }
    {
        let new = usize::from(below.is_some()) + usize::from(above.is_some());
        if gone.from + new + (self.used - gone.to) > self.memory.places.len() {
            return Err(StoreRefusal::Full);
        }
        match (below, above) {
            (Some(below), Some(above)) => self.replace(gone, &[below, above]),
            (Some(row), None) | (None, Some(row)) => self.replace(gone, &[row]),
            (None, None) => self.replace(gone, &[]),
        }
        Ok(())
    }
}
