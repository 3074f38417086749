// The figures that the lists go by.
ghost use Rattle.std.specs.Prelude.{◌≡◌, length, nat_le, nat_lt};
ghost use Rattle.rows.specs.Questions.{first_count, outside, lower};
ghost use Rattle.table.specs.Placed.{nth_entry};
ghost use Rattle.counters.specs.Meaning.{size, placed};
ghost use Rattle.lists.specs.Row.{row_of};

use counters::counters::Counters;
use rows::entry::Entry;

// The lower figure of an entry: its item has at least so many hits.
pub fn lower<T: Copy + Drop>(entry: Entry<T>) -> u32
    ensures { result ≡ lower entry }
{
    entry.count.saturating_sub(entry.error)
}

// Whether an entry is listed at a threshold.
pub fn reaches<T: Copy + Drop>(entry: Entry<T>, least: u32) -> bool
    ensures { result ≡ nat_le least entry.count }
{
    entry.count >= least
}

// The lowest entry.
fn lowest<T: Copy + Drop>(counters: &Counters<'_, T>) -> Option<Entry<T>>
    ensures { result ≡ nth_entry (placed counters.now) 0 }
{
    let place = counters.first()?;
    counters.entry(place)
}

// The count of the lowest entry, or 0 if there is none.
fn lowest_count<T: Copy + Drop>(counters: &Counters<'_, T>) -> u32
    ensures { result ≡ first_count 0 (row_of counters.now) }
{
    lowest(counters).map_or(0, |entry| entry.count)
}

// Whether a counter is unused.
fn has_room<T: Copy + Drop>(counters: &Counters<'_, T>) -> bool
    ensures { result ≡ nat_lt (length (row_of counters.now)) (size counters.now) }
{
    counters.used() < counters.size()
}

// The outside figure: an item without an entry has at most so many hits.
pub fn outside<T: Copy + Drop>(counters: &Counters<'_, T>) -> u32
    ensures { result ≡ outside (size counters.now) (row_of counters.now) }
{
    if has_room(counters) {
        0
    } else {
        lowest_count(counters)
    }
}
