// A walk along the row from the high end, by the links.
ghost use Rattle.std.specs.Prelude.{◌≡◌, ◌≤◌, length};
ghost use Rattle.std.specs.Iterator.{YieldsFirst, item_count};
ghost use Rattle.rows.specs.Questions.{by_position};
ghost use Rattle.lists.specs.Row.{row_of};
ghost use Rattle.lists.specs.Walks.{ahead};

use counters::counters::Counters;
use rows::entry::Entry;

/// The entries by position. It keeps the place of the next one, or none at the end of the row.
#[derive(Clone, Copy)]
pub struct Walk<'c, 'a, T> {
    counters: &'c Counters<'a, T>,
    place: Option<usize>,
}

impl<'c, 'a, T: Copy + Drop> Walk<'c, 'a, T> {
    /// A walk that has passed no position yet.
    pub fn new(counters: &'c Counters<'a, T>) -> Walk<'c, 'a, T>
        ensures all { ahead result ≡ by_position (row_of counters.now) }
        ensures few { length (ahead result) ≤ 512 }
    {
        Walk {
            counters,
            place: counters.last(),
        }
    }
}

impl<'c, 'a, T: Copy + Drop> Iterator for Walk<'c, 'a, T> {
    type Item = Entry<T>;

    ghost next_gives = { YieldsFirst ahead };

    ghost remaining = { item_count ahead };

    fn next(&mut self) -> Option<Entry<T>> {
        let place = self.place?;
        self.place = self.counters.before(place);
        self.counters.entry(place)
    }
}
