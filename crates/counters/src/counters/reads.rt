// What is read off the counters, each by a constant number of accesses. Positions of the row count from 0 at the low end;
// `last` and `before` walk it from the high end.
ghost use Rattle.std.specs.Prelude.{◌≡◌, ℕ, ◌+◌, ◌-◌, length, Some, None};
ghost use Rattle.table.specs.Placed.{at_place, placed_entry, nth_entry, place_at, place_below};
ghost use Rattle.counters.specs.Meaning.{size, placed, Structured};

use crate::counters::Counters;
use rows::entry::Entry;

// A link as a place: in a function of its own, since with a `?` in its callers their proofs did not close.
fn place_of(link: Option<u16>) -> Option<usize>
    ensures { result ≡ link }
{
    link.map(usize::from)
}

impl<'a, T: Copy> Counters<'a, T> {
    /// How many places there are.
    pub fn size(&self) -> usize
        ensures { result ≡ size self.now }
    {
        self.table.places.len()
    }

    /// How many counters are in use: those of the places below this number. The structure comes with the type.
    pub fn used(&self) -> usize
        ensures number { result ≡ length (placed self.now) }
        ensures structure { Structured self.now }
    {
        self.used
    }

    /// How many hits there were.
    pub fn total(&self) -> u32
        ensures { result ≡ self.now.total }
    {
        self.total
    }

    /// The entry of the counter at `place`, if that is in use.
    pub fn entry(&self, place: usize) -> Option<Entry<T>>
        ensures found { result ≡ placed_entry (at_place place (placed self.now)) }
        ensures at { (i : ℕ) → place_at (placed self.now) i ≡ Some place → result ≡ nth_entry (placed self.now) i }
    {
        if place >= self.used {
            return None;
        }
        self.table.entry(place as u16)
    }

    // The ends have a name each, as a slice's have: with a side for the end, it would be chosen at each call.

    /// The place of the lowest entry.
    #[tactic(auto, using(crate::proofs::Showings::lowest_place))]
    pub fn first(&self) -> Option<usize>
        ensures { result ≡ place_at (placed self.now) 0 }
    {
        place_of(self.table.first())
    }

    /// The place of the highest entry.
    #[tactic(auto, using(crate::proofs::Showings::highest_place))]
    pub fn last(&self) -> Option<usize>
        ensures { result ≡ place_at (placed self.now) (length (placed self.now) - 1) }
    {
        place_of(self.table.last())
    }

    /// The place of the entry right below the one at `place`; none below the lowest, and none for a place not in use.
    pub fn before(&self, place: usize) -> Option<usize>
        ensures below { result ≡ place_below place (placed self.now) }
        ensures steps { (i : ℕ) → place_at (placed self.now) (i + 1) ≡ Some place → result ≡ place_at (placed self.now) i }
    {
        if place >= self.used {
            return None;
        }
        place_of(self.table.before(place as u16))
    }
}
