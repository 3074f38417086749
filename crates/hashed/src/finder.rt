// The hashed finder: every slot is in one chain, that of the mark of its item, or in the chain of the free ones.
ghost use Rattle.std.specs.Prelude.{◌≡◌, ◌≤◌, length};
ghost use Rattle.hashed.specs.Slots.{entries, bindings_in, Sound};

use crate::table::Table;

pub mod calls;

// Every value of the type has its links in order, so that a walk along a chain ends and passes all that the chain
// has; and `held` is the number of bindings, beside slots that are lent.
#[derive(Drop)]
pub struct HashedFinder<'a, T> {
    table: Table<'a, T>,
    held: usize,
    ghost few: { length table.slots.now ≤ 1024 },
    ghost counted: { held ≡ length (bindings_in (entries table.slots.now)) },
    ghost sound: { ∥ Sound table.slots.now table.free ∥₁ },
}
