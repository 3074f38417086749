// Making a straight finder, and its calls. They stand apart from the struct, since its ghost field may not rest on a file
// of specs/ that names the struct.
ghost use Rattle.std.specs.Prelude.{◌≡◌, ◌+◌, ◌<◌, [], ◌∷◌, ◌++◌, length, None, MatchOption, slice_index_or, slice_set};
ghost use Rattle.finders.specs.declared.finder.Binding.{Binding};
ghost use Rattle.finders.specs.Calls.{MadeOver};
ghost use Rattle.finders.specs.Fronts.{front_within, empty_apart};
ghost use Rattle.finders.specs.Lookup.{lookup, Apart};
ghost use Rattle.finders.specs.Search.{FoundAt};
ghost use Rattle.finders.specs.Straight.{bindings_of, room_of};

use crate::finder::{Binding, Finder};
use crate::refusal::{MOST_SLOTS, Refusal, check_enter};
use crate::straight::StraightFinder;
use items::kind::Kind;

impl<'a, T> StraightFinder<'a, T> {
    // An empty finder over the slots, whatever they hold. It cannot refuse: `check_slots` says before whether there are
    // 1 to 1,024, and of more slots only the first 1,024 are used.
    pub fn over(slots: &'a mut [Binding<T>]) -> StraightFinder<'a, T>
        ensures { MadeOver bindings_of room_of (length slots.old) result }
    {
        // Two lines of the library's at each making over lent memory: a function of its own for them would be no shorter.
        let count = slots.len().min(MOST_SLOTS);
        let (slots, _) = slots.split_at_mut(count);
        StraightFinder { slots, held: 0 }
    }
}

impl<'a, T: Kind> StraightFinder<'a, T> {
    fn index(&self, item: &T) -> Option<usize>
        ensures { MatchOption result (lookup T.Kind.same (bindings_of self.now) item.now ≡ None) (FoundAt T.Kind.same (bindings_of self.now) item.now) }
    {
        self.slots[..self.held]
            .iter()
            .position(|binding| item.is_same(&binding.item))
    }
}

impl<'a, T: Copy + Drop> StraightFinder<'a, T> {
    // One more binding behind the others.
    fn push(&mut self, binding: Binding<T>)
        requires { self.old.held < length self.old.slots.now }
        ensures bindings { bindings_of self.new ≡ bindings_of self.old ++ binding ∷ [] }
        ensures room { room_of self.new ≡ room_of self.old }
    {
        self.slots[self.held] = binding;
        self.held += 1;
    }

    // The binding at `i` goes, and the last one fills its slot.
    fn swap_remove(&mut self, i: usize)
        requires { i < self.old.held }
        ensures slots { (d : Binding T) → self.new.slots.now ≡ slice_set self.old.slots.now i (slice_index_or self.old.slots.now self.new.held d) }
        ensures held { self.new.held + 1 ≡ self.old.held }
        ensures room { room_of self.new ≡ room_of self.old }
    {
        self.held -= 1;
        self.slots[i] = self.slots[self.held];
    }
}

impl<'a, T: Kind + Copy + Drop> Finder<T> for StraightFinder<'a, T> {
    ghost bindings = { bindings_of };

    ghost room = { room_of };

    ghost lawful = { λ f. Apart T.Kind.same (bindings_of f) };

    ghost within = { λ f. front_within f.held f.slots.now };

    ghost fresh = { λ f. empty_apart T.Kind.same (bindings_of f) };

    fn find(&self, item: &T) -> Option<usize> {
        self.index(item).map(|i| self.slots[i].place)
    }

    fn enter(&mut self, item: T, place: usize) -> Result<(), Refusal> {
        check_enter(self.find(&item), self.held(), self.capacity())?;
        self.push(Binding { item, place });
        Ok(())
    }

    fn leave(&mut self, item: &T) -> Result<(), Refusal> {
        let Some(i) = self.index(item) else {
            return Err(Refusal::Absent);
        };
        self.swap_remove(i);
        Ok(())
    }

    fn held(&self) -> usize {
        self.held
    }

    fn capacity(&self) -> usize {
        self.slots.len()
    }
}
