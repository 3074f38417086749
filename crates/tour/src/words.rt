// What the tour says of a code that was not taken. An article's fault has a text of its own; of a finder's refusal the
// tour speaks itself, since a finder does not know that its items are articles.
use crate::delivery::Trouble;
use finders::refusal::Refusal;
use std::fmt;

fn of_refusal(refusal: Refusal) -> &'static str {
    match refusal {
        Refusal::Held => "the same article is held already",
        Refusal::Full => "as many are held as fit",
        Refusal::Absent => "no same article is held",
        Refusal::Slots => "a finder is made over 1 to 1,024 slots",
    }
}

impl fmt::Display for Trouble {
    fn fmt<W: fmt::Write>(&self, f: &mut fmt::Formatter<W>) -> fmt::Result {
        let number = u8::from(*self);
        match *self {
            Trouble::Spoiled(fault) => write!(f, "refused with {number}: {fault}"),
            Trouble::Refused(refusal) => {
                write!(f, "refused with {number}: {}", of_refusal(refusal))
            }
        }
    }
}
