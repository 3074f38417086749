// The finder: a map from items, up to sameness, to places, with a capacity.
ghost use Rattle.std.specs.Prelude.{◌≡◌, ℕ, ◌≤◌, Bool, true, List, length, is_ok, OnErr, OnOk};
ghost use Rattle.finders.specs.declared.finder.Binding.{Binding};
ghost use Rattle.finders.specs.Lookup.{lookup, Apart};
ghost use Rattle.finders.specs.Refusals.{unless_refused, enter_refusal, leave_refusal};
ghost use Rattle.finders.specs.Calls.{Entered, Left, LookupsAgree};

use crate::refusal::Refusal;
use items::kind::Kind;

// An item and the place that it is found at.
#[derive(Clone, Copy, Debug, PartialEq, Eq, Hash)]
pub struct Binding<T> {
    pub item: T,
    pub place: usize,
}

pub trait Finder<T: Kind> {
    // What the finder stands for.
    ghost bindings: { Self → List (Binding T) };

    // The capacity: how many bindings fit.
    ghost room: { Self → ℕ };

    // What the bindings must keep to for the calls to answer: that no two are of the same item, and what else
    // this finder needs to know of its items. No call asks for it, and each call keeps it.
    ghost lawful: { Self → Type 0 };

    ghost within: { (f : Self) → length (bindings f) ≤ room f };

    // An empty finder is lawful, whatever its slots hold.
    ghost fresh: { (f : Self) → length (bindings f) ≡ 0 → lawful f };

    // The place of the same item, or none.
    fn find(&self, item: &T) -> Option<usize>
        ensures { lawful self.now → result ≡ lookup T.Kind.same (bindings self.now) item.now };

    // Binds the item to the place.
    fn enter(&mut self, item: T, place: usize) -> Result<(), Refusal>
        ensures answer { lawful self.old → result ≡ unless_refused (enter_refusal T.Kind.same (bindings self.old) (room self.old) item) }
        ensures refused { OnErr result (self.new ≡ self.old) }
        ensures entered { lawful self.old → OnOk result (Entered T.Kind.same (bindings self.old) item place (bindings self.new)) }
        ensures room { room self.new ≡ room self.old }
        ensures lawful { lawful self.old → lawful self.new };

    // Removes the binding of the same item.
    fn leave(&mut self, item: &T) -> Result<(), Refusal>
        ensures answer { lawful self.old → result ≡ unless_refused (leave_refusal T.Kind.same (bindings self.old) item.now) }
        ensures refused { OnErr result (self.new ≡ self.old) }
        ensures left { lawful self.old → OnOk result (Left T.Kind.same (bindings self.old) item.now (bindings self.new)) }
        ensures room { room self.new ≡ room self.old }
        ensures lawful { lawful self.old → lawful self.new };

    // How many items are bound; and what `lawful` gives at the least.
    fn held(&self) -> usize
        ensures number { result ≡ length (bindings self.now) }
        ensures apart { lawful self.now → Apart T.Kind.same (bindings self.now) };

    fn capacity(&self) -> usize
        ensures { result ≡ room self.now };
}

// Whatever the bindings are, same items are found at the same place.
pub fn same_items_share_a_place<T: Kind>()
    ensures { LookupsAgree T.Kind.same }
{}
