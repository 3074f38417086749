// Making a hashed finder, and its calls.
ghost use Rattle.std.specs.Prelude.{length};
ghost use Rattle.finders.specs.Calls.{MadeOver};
ghost use Rattle.hashed.specs.Slots.{Lawful};
ghost use Rattle.hashed.specs.Members.{slots_within, empty_lawful};
ghost use Rattle.hashed.specs.Hashed.{entries_of, bindings_of, room_of};

use crate::finder::HashedFinder;
use crate::slot::{Entry, Slot};
use crate::table::Table;
use finders::finder::{Binding, Finder};
use finders::refusal::{MOST_SLOTS, Refusal};
use items::kind::Kind;

impl<'a, T: Copy + Drop> HashedFinder<'a, T> {
    // An empty finder over the slots, whatever they hold. It cannot refuse: `check_slots` says before whether there are
    // 1 to 1,024, and of more slots only the first 1,024 are used.
    pub fn over(slots: &'a mut [Slot<T>]) -> HashedFinder<'a, T>
        ensures { MadeOver bindings_of room_of (length slots.old) result }
    {
        // As in the straight finder: two lines of the library's, which a function of its own would not make shorter.
        let count = slots.len().min(MOST_SLOTS);
        let (slots, _) = slots.split_at_mut(count);
        HashedFinder {
            table: Table::over(slots),
            held: 0,
        }
    }
}

impl<'a, T: Kind + Copy + Drop> Finder<T> for HashedFinder<'a, T> {
    ghost bindings = { bindings_of };

    ghost room = { room_of };

    ghost lawful = { λ f. Lawful T.Kind.same T.Kind.mark_of (entries_of f) };

    ghost within = { λ f. slots_within f.table.slots.now };

    ghost fresh = { λ f. empty_lawful T.Kind.same T.Kind.mark_of (entries_of f) };

    fn find(&self, item: &T) -> Option<usize> {
        let spot = self.table.locate(item)?;
        Some(self.table.slots[spot.here as usize].place)
    }

    fn enter(&mut self, item: T, place: usize) -> Result<(), Refusal> {
        if self.find(&item).is_some() {
            return Err(Refusal::Held);
        }
        let Some(here) = self.table.free else {
            return Err(Refusal::Full);
        };
        let mark = item.mark();
        let binding = Binding { item, place };
        self.table.insert(here, Entry { binding, mark });
        self.held += 1;
        Ok(())
    }

    fn leave(&mut self, item: &T) -> Result<(), Refusal> {
        let Some(spot) = self.table.locate(item) else {
            return Err(Refusal::Absent);
        };
        self.table.remove(spot);
        self.held -= 1;
        Ok(())
    }

    fn held(&self) -> usize {
        self.held
    }

    fn capacity(&self) -> usize {
        self.table.slots.len()
    }
}
