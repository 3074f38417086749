// The same calls, with the same answers, on a straight and on a hashed finder.
use finders::finder::{Binding, Finder};
use finders::straight::StraightFinder;
use hashed::finder::HashedFinder;
use hashed::slot::Slot;
use items::label::Label;
use std::process::Abort;

const FILLER: Label = Label { number: 0 };

// Labels whose marks share a chain of a hashed finder with four slots, and two that do not.
const CLASHING: [u32; 3] = [4, 8, 65539];

// The number of a refusal stands for it.
fn entered<F: Finder<Label>>(finder: &mut F, number: u32, place: usize) -> Result<(), u8> {
    finder.enter(Label { number }, place).map_err(u8::from)
}

fn left<F: Finder<Label>>(finder: &mut F, number: u32) -> Result<(), u8> {
    finder.leave(&Label { number }).map_err(u8::from)
}

fn found<F: Finder<Label>>(finder: &F, number: u32) -> Option<usize> {
    finder.find(&Label { number })
}

// Over four slots.
fn trial<F: Finder<Label>>(rt: &impl Abort, finder: &mut F) {
    assert_eq!(rt; (finder.held(), finder.capacity()), (0, 4));
    for (place, number) in CLASHING.iter().enumerate() {
        assert_eq!(rt; entered(finder, *number, place), Ok(()));
    }
    assert_eq!(rt; entered(finder, 8, 9), Err(12));
    assert_eq!(rt; entered(finder, 5, 3), Ok(()));
    assert_eq!(rt; entered(finder, 5, 9), Err(12), "held comes before full");
    assert_eq!(rt; entered(finder, 6, 9), Err(13));
    assert_eq!(rt;
        (found(finder, 4), found(finder, 8), found(finder, 65539)),
        (Some(0), Some(1), Some(2))
    );
    assert_eq!(rt; (left(finder, 8), left(finder, 8)), (Ok(()), Err(14)));
    assert_eq!(rt;
        (found(finder, 4), found(finder, 8), found(finder, 65539)),
        (Some(0), None, Some(2))
    );
    assert_eq!(rt;
        entered(finder, 6, 7),
        Ok(()),
        "the freed slot is used again"
    );
    assert_eq!(rt; (found(finder, 6), finder.held()), (Some(7), 4));
}

#[test]
fn straight(rt: HostRuntime) {
    let mut slots = [Binding {
        item: FILLER,
        place: 0,
    }; 4];
    trial(&rt, &mut StraightFinder::over(&mut slots));
}

#[test]
fn hashed(rt: HostRuntime) {
    let mut slots = [Slot::vacant(); 4];
    trial(&rt, &mut HashedFinder::over(&mut slots));
}
