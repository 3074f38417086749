// The slots that a hashed finder is made over.
ghost use Rattle.std.specs.Prelude.{◌≡◌};
ghost use Rattle.hashed.specs.Slots.{vacant_slot};

use finders::finder::Binding;

// A binding, and the mark of its item: what a slot that is in use stands for.
#[derive(Clone, Copy)]
pub(crate) struct Entry<T> {
    pub(crate) binding: Binding<T>,
    pub(crate) mark: u16,
}

// The item that a slot holds, and its mark.
#[derive(Clone, Copy)]
pub(crate) struct Held<T> {
    pub(crate) item: T,
    pub(crate) mark: u16,
}

// A slot has room for one entry, with the link to the next slot of its chain, and for the head of the chain that
// has the slot's own number. Links and heads are numbers of slots, since the memory is lent and there is no heap.
// The item's place stands outside of the `Option`, and means nothing while that is `None`: within, its alignment would
// make each slot of a label a quarter longer, and look-ups slower.
#[derive(Clone, Copy)]
pub struct Slot<T> {
    pub(crate) place: usize,
    pub(crate) held: Option<Held<T>>,
    pub(crate) link: Option<u16>,
    pub(crate) head: Option<u16>,
}

impl<T> Slot<T> {
    // A slot that is not in use.
    pub fn vacant() -> Slot<T>
        ensures { result ≡ vacant_slot }
    {
        Slot {
            place: 0,
            held: None,
            link: None,
            head: None,
        }
    }
}
