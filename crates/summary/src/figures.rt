// What an entry tells of its item.
ghost use Rattle.std.specs.Prelude.{◌≡◌};
ghost use Rattle.rows.specs.Questions.{outside, bracket_at};
ghost use Rattle.calls.specs.Calls.{entry_at};
ghost use Rattle.calls.specs.Reading.{row_of};
ghost use Rattle.calls.specs.Watching.{form_of};
ghost use Rattle.summary.specs.Meaning.{reading};

use counters::counters::Counters;
use lists::figures::{lower, outside};
use rows::entry::Entry;

/// The entry at the place, if there is one.
pub fn entry_at<T: Copy + Drop>(
    counters: &Counters<'_, T>,
    place: Option<usize>,
) -> Option<Entry<T>>
    ensures { result ≡ entry_at (reading.placed counters.now) place }
{
    counters.entry(place?)
}

/// The bracket of an item with this entry, or without one.
pub fn figures<T: Copy + Drop>(counters: &Counters<'_, T>, entry: Option<Entry<T>>) -> (u32, u32)
    ensures { result ≡ bracket_at (outside (reading.size counters.now) (row_of reading counters.now)) entry }
{
    let Some(entry) = entry else {
        return (0, outside(counters));
    };
    (lower(entry), entry.count)
}

/// The form of the item that its entry holds; without one, the form given.
pub fn form_of<T: Copy + Drop>(entry: Option<Entry<T>>, item: T) -> T
    ensures { result ≡ form_of entry item }
{
    entry.map_or(item, |entry| entry.item)
}
