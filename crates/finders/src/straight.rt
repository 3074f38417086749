// The straight finder: the bindings stand one after another at the front of the supplied slots.
ghost use Rattle.std.specs.Prelude.{◌≤◌, length};

use crate::finder::Binding;

pub mod calls;

// The slots are lent, since memory is fixed: the first `held` of them hold the bindings.
#[derive(Drop)]
pub struct StraightFinder<'a, T> {
    slots: &'a mut [Binding<T>],
    held: usize,
    ghost fits: { held ≤ length slots.now },
}
