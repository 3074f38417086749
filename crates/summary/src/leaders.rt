// The first k positions, as a watched hit looks at them.
ghost use Rattle.std.specs.Prelude.{◌≡◌, ◌||◌, take, Some};
ghost use Rattle.rows.specs.Questions.{by_position, listed};
ghost use Rattle.calls.specs.Reading.{row_of};
ghost use Rattle.calls.specs.Watching.{last_item, entered_by, left_by};
ghost use Rattle.summary.specs.Meaning.{reading};
ghost use Rattle.summary.specs.Leading.{leading};

use counters::counters::Counters;
use items::kind::Kind;
use lists::walk::Walk;
use rows::entry::Entry;

/// The first k positions of the counters.
#[derive(Drop)]
pub struct Leaders<'c, 'a, T> {
    counters: &'c Counters<'a, T>,
    k: usize,
}

/// How an item stands to some positions: whether it is at one of them; and the item at the last of them, which is there or
/// not whether the item leads or not.
#[derive(Clone, Copy)]
pub struct Standing<T> {
    pub leads: bool,
    pub last: Option<T>,
}

impl<T: Kind + Copy + Drop> Standing<T> {
    // With one more position.
    fn with(self, entry: Entry<T>, item: &T) -> Standing<T>
        ensures leads { result.leads ≡ self.leads || T.Kind.same entry.item item.now }
        ensures last { result.last ≡ Some entry.item }
    {
        Standing {
            leads: self.leads || entry.item.is_same(item),
            last: Some(entry.item),
        }
    }
}

impl<'c, 'a, T: Kind + Copy + Drop> Leaders<'c, 'a, T> {
    pub fn new(counters: &'c Counters<'a, T>, k: usize) -> Leaders<'c, 'a, T>
        ensures { leading result ≡ take k (by_position (row_of reading counters.now)) }
    {
        Leaders { counters, k }
    }

    // Whether the item is at one of the positions.
    fn has(&self, item: &T) -> bool
        ensures { result ≡ listed T.Kind.same item.now (leading self.now) }
    {
        Walk::new(self.counters)
            .take(self.k)
            .any(|entry| entry.item.is_same(item))
    }

    /// How the item stands to the positions, in one walk over them.
    pub fn survey(&self, item: &T) -> Standing<T>
        ensures leads { result.leads ≡ listed T.Kind.same item.now (leading self.now) }
        ensures last { result.last ≡ last_item (leading self.now) }
    {
        let none = Standing {
            leads: false,
            last: None,
        };
        Walk::new(self.counters)
            .take(self.k)
            .fold(none, |standing, entry| standing.with(entry, item))
    }

    // What the item entered as, if it leads now and did not before; `form` is what its entry holds.
    fn entered(&self, item: &T, form: T, led: bool) -> Option<T>
        ensures { result ≡ entered_by led (listed T.Kind.same item.now (leading self.now)) form }
    {
        (!led && self.has(item)).then_some(form)
    }

    // The item that was the last to lead, if it does not lead now.
    fn left(&self, last: Option<T>) -> Option<T>
        ensures { result ≡ left_by T.Kind.same last (leading self.now) }
    {
        let last = last?;
        (!self.has(&last)).then_some(last)
    }

    /// What entered and what left the positions by a hit of the item, by how it stood before.
    pub fn changes(&self, item: &T, form: T, before: Standing<T>) -> (Option<T>, Option<T>)
        ensures { result ≡ (entered_by before.leads (listed T.Kind.same item.now (leading self.now)) form, left_by T.Kind.same before.last (leading self.now)) }
    {
        let entered = self.entered(item, form, before.leads);
        let left = self.left(before.last);
        (entered, left)
    }
}
