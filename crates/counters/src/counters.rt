// The table that always stands, and the token of a counter that is out of it.
ghost use Rattle.std.specs.Prelude.{ℕ, ◌≤◌, length};
ghost use Rattle.table.specs.Stands.{Stands};

use table::Table;

pub mod moves;
pub mod reads;
mod token;
pub mod unmoved;

/// The counters of a summary. The places below `used` have counters in use, and no count is above `total`.
// How many are in use stands beside the places, since these are lent: there is no heap to hold the counters in.
#[derive(Drop)]
pub struct Counters<'a, T> {
    table: Table<'a, T>,
    used: usize,
    total: u32,
    ghost small: { length table.places.now ≤ 512 },
    ghost fits: { used ≤ length table.places.now },
    ghost sound: { ∥ Stands table.places.now table.lists used total ∥₁ },
}
