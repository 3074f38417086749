// Look-ups that miss in a full finder: the work whose instructions are counted, once for each finder.
#![tactic(auto)]

ghost use Rattle.std.specs.Prelude.{◌≤◌};

use finders::finder::{Binding, Finder};
use finders::refusal::Refusal;
use finders::straight::StraightFinder;
use hashed::finder::HashedFinder;
use hashed::slot::Slot;
use items::label::Label;
use std::{env, io};

// Of 1,000 labels that have no counter each is looked for a hundred times.
const ROUNDS: u32 = 100;

// The labels that a finder holds, others that are looked for, and how often each is.
#[derive(Drop)]
struct Work {
    held: [Label; 512],
    others: [Label; 1000],
    rounds: u32,
}

impl Work {
    fn new(rounds: u32) -> Work {
        Work {
            held: scattered(0),
            others: scattered(512),
            rounds,
        }
    }

    fn fill<F: Finder<Label>>(&self, finder: &mut F) -> Result<(), Refusal> {
        for (place, item) in self.held.iter().enumerate() {
            finder.enter(*item, place)?;
        }
        Ok(())
    }

    // How many of the others are not found: none is counted twice. By a loop, since `filter` and `count` take six instructions
    // more for each, and a look-up in the hashed finder some sixteen.
    fn misses<F: Finder<Label>>(&self, finder: &F) -> usize
        ensures { result ≤ 1000 }
    {
        let mut count = 0;
        for item in &self.others {
            if finder.find(item).is_none() {
                count += 1;
            }
        }
        count
    }

    // How many look-ups missed.
    fn measure<F: Finder<Label>>(&self, finder: &mut F) -> Result<usize, Refusal> {
        self.fill(finder)?;
        let count = (0..self.rounds).fold(0usize, |count, _| {
            count.saturating_add(self.misses(finder))
        });
        Ok(count)
    }
}

// Labels from the `first` on, scattered over all 32-bit numbers.
fn scattered<const N: usize>(first: u32) -> [Label; N] {
    let mut labels = [Label { number: 0 }; N];
    for (label, i) in labels.iter_mut().zip(first..) {
        label.number = i.wrapping_mul(2654435761);
    }
    labels
}

// The word asks for a finder, and with `-fill` behind it for no look-ups. A match says which: each finder lies in slots of
// its own type.
fn measured(word: &str) -> Result<usize, Refusal> {
    let looked_for = matches!(word, "straight" | "hashed");
    let work = Work::new(if looked_for { ROUNDS } else { 0 });
    match word {
        "straight" | "straight-fill" => {
            let mut slots = [Binding {
                item: Label { number: 0 },
                place: 0,
            }; 512];
            work.measure(&mut StraightFinder::over(&mut slots))
        }
        _ => {
            let mut slots = [Slot::vacant(); 512];
            work.measure(&mut HashedFinder::over(&mut slots))
        }
    }
}

fn main(rt: HostRuntime) -> io::Result<()> {
    let mut words = env::args(&rt)?;
    let Some(word) = words.nth(1) else {
        return Ok(());
    };
    match measured(&word) {
        Ok(count) => println!(rt; "{word}: {count} misses"),
        Err(refusal) => println!(rt; "{word}: refused with {}", u8::from(refusal)),
    }
}
