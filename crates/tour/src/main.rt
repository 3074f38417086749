// A tour: a delivery of article codes is checked in, and a morning of label redraws is counted, each step told in plain
// words. Uses the library as any program would, and prints.
#![tactic(auto)]

mod delivery;
mod morning;
mod words;

use calls::answers::Line;
use delivery::{Trouble, check_in, look_up, take_out};
use finders::finder::{Binding, Finder};
use finders::refusal::check_slots;
use finders::straight::StraightFinder;
use hashed::finder::HashedFinder;
use hashed::slot::Slot;
use items::article::Article;
use items::kind::Kind;
use items::label::Label;
use morning::count_morning;
use std::io;
use summary::opening::{check_open, open};
use table::place::Place;

// What was delivered: good codes, spoiled ones, and an article that comes again in another width.
const DELIVERY: [&str; 9] = [
    "4006381333931",
    "96385074",
    "400638133",
    "40063813339E1",
    "6291041500218",
    "6291041500213",
    "04006381333931",
    "036000291452",
    "80614141123458",
];

// The handle that prints goes beside what is told of, as it does everywhere: a type for both would be opened in each line.
fn tell_check_in<F: Finder<Article>>(
    rt: &impl Print,
    finder: &mut F,
    code: &str,
    place: usize,
) -> io::Result<()> {
    match check_in(finder, code.as_bytes(), place) {
        Ok(article) => println!(rt;
            "  {code:<14}  an article of {} digits, entered at place {place}",
            article.width()
        ),
        Err(trouble) => println!(rt; "  {code:<14}  {trouble}"),
    }
}

fn tell_look_up<F: Finder<Article>>(rt: &impl Print, finder: &F, code: &str) -> io::Result<()> {
    match look_up(finder, code.as_bytes()) {
        Ok(Some(place)) => println!(rt; "  {code:<14}  is at place {place}"),
        Ok(None) => println!(rt; "  {code:<14}  is not held"),
        Err(trouble) => println!(rt; "  {code:<14}  {trouble}"),
    }
}

fn tell_take_out<F: Finder<Article>>(
    rt: &impl Print,
    finder: &mut F,
    code: &str,
) -> io::Result<()> {
    match take_out(finder, code.as_bytes()) {
        Ok(()) => println!(rt; "  {code:<14}  leaves"),
        Err(trouble) => println!(rt; "  {code:<14}  {trouble}"),
    }
}

// What was wrong with each code, if anything.
fn troubles<F: Finder<Article>>(finder: &mut F) -> [Option<Trouble>; 9] {
    let mut troubles = [None; 9];
    for (place, (code, trouble)) in DELIVERY.iter().zip(troubles.iter_mut()).enumerate() {
        *trouble = check_in(finder, code.as_bytes(), place).err();
    }
    troubles
}

fn compare(rt: &impl Print, filler: Article) -> io::Result<()> {
    let mut bindings = [Binding {
        item: filler,
        place: 0,
    }; 4];
    let mut slots = [Slot::vacant(); 4];
    let straight = troubles(&mut StraightFinder::over(&mut bindings));
    let hashed = troubles(&mut HashedFinder::over(&mut slots));
    println!(rt; "")?;
    if straight == hashed {
        println!(rt; "Through a hashed finder, every code of the delivery gets the same answer.")
    } else {
        println!(rt; "Through a hashed finder, some code of the delivery gets another answer.")
    }
}

fn receive<F: Finder<Article>>(rt: &impl Print, finder: &mut F) -> io::Result<()> {
    println!(rt;
        "A delivery of article codes is checked in. The finder has room for {}.",
        finder.capacity()
    )?;
    for code in DELIVERY {
        let place = finder.held();
        tell_check_in(rt, finder, code, place)?;
    }
    let next = finder.held();
    println!(rt; "")?;
    println!(rt; "The till scans some of them in other widths.")?;
    tell_look_up(rt, finder, "04006381333931")?;
    tell_look_up(rt, finder, "00000096385074")?;
    tell_look_up(rt, finder, "80614141123458")?;
    println!(rt; "")?;
    println!(rt; "One is sold out and leaves; its slot is used again.")?;
    tell_take_out(rt, finder, "00000096385074")?;
    tell_take_out(rt, finder, "96385074")?;
    tell_check_in(rt, finder, "80614141123458", next)?;
    println!(rt; "")?;
    println!(rt;
        "Held at the end: {} of the {} that fit.",
        finder.held(),
        finder.capacity()
    )
}

fn count(rt: &impl Print) -> io::Result<()> {
    let filler = Label { number: 0 };
    let mut slots = [Binding {
        item: filler,
        place: 0,
    }; 4];
    let mut places = [Place::vacant(filler); 4];
    let mut lines = [Line {
        item: filler,
        count: 0,
        error: 0,
        sure: false,
    }; 4];
    let mut finder = StraightFinder::over(&mut slots);
    if let Err(refusal) = check_open(places.len(), &finder) {
        return println!(rt; "no summary: refused with {}", u8::from(refusal));
    }
    let mut summary = open(&mut places);
    count_morning(rt, &mut summary, &mut finder, &mut lines)
}

fn main(rt: HostRuntime) -> io::Result<()> {
    // Any article fills the slots: a finder is made empty, whatever they hold.
    let Ok(filler) = Article::from_bytes(b"00000000") else {
        return Ok(());
    };
    let mut slots = [Binding {
        item: filler,
        place: 0,
    }; 4];
    if let Err(refusal) = check_slots(slots.len()) {
        return println!(rt; "no finder: refused with {}", u8::from(refusal));
    }
    let mut finder = StraightFinder::over(&mut slots);
    receive(&rt, &mut finder)?;
    compare(&rt, filler)?;
    count(&rt)
}
