// A shelf label: a 32-bit number, printed without leading zeros.
ghost use Rattle.items.specs.Labels.{same_label, label_mark};
ghost use Rattle.std.proofs.Common.{rules};

use crate::kind::Kind;

#[derive(Clone, Copy, Debug, PartialEq, Eq, Hash)]
pub struct Label {
    pub number: u32,
}

impl Kind for Label {
    ghost same = { same_label };

    ghost mark_of = { label_mark };

    ghost figure_of = { λ x. x.number };

    ghost width_of = { λ _. 0 };

    ghost equivalence = { Prim.search rules };

    ghost marks = { Prim.search rules };

    ghost narrow = { Prim.search rules };

    fn is_same(&self, other: &Label) -> bool {
        self == other
    }

    fn mark(&self) -> u16 {
        let upper = self.number / 65536;
        let lower = self.number % 65536;
        ((upper + lower) % 65536) as u16
    }

    fn figure(&self) -> u64 {
        u64::from(self.number)
    }

    fn width(&self) -> u8 {
        0
    }
}
