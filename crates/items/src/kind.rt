// What counting, finding and printing may know of an item, and no more.
ghost use Rattle.std.specs.Prelude.{◌≡◌, ℕ, ◌≤◌, Bool, true};
ghost use Rattle.items.specs.Sameness.{Equivalence};

pub trait Kind {
    // Whether two items count as one.
    ghost same: { Self → Self → Bool };

    // The mark: a number below 65,536 that chooses where a finder looks for the item.
    ghost mark_of: { Self → ℕ };

    // The figure: the number that stands for the item in print.
    ghost figure_of: { Self → ℕ };

    // The width: the least number of digits that the figure is printed with.
    ghost width_of: { Self → ℕ };

    // Not `PartialEq`: a kind may have an equality that tells more apart than counting does.
    fn is_same(&self, other: &Self) -> bool
        ensures { result ≡ same self.now other.now };

    fn mark(&self) -> u16
        ensures { result ≡ mark_of self.now };

    fn figure(&self) -> u64
        ensures { result ≡ figure_of self.now };

    fn width(&self) -> u8
        ensures { result ≡ width_of self.now };

    ghost equivalence: { Equivalence same };

    ghost marks: { (x y : Self) → same x y ≡ true → mark_of x ≡ mark_of y };

    ghost narrow: { (x : Self) → width_of x ≤ 20 };
}
