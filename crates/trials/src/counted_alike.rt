// The same hits, counted over a straight and over a hashed finder: the same rows.
use calls::answers::Line;
use calls::refusal::Refusal;
use finders::finder::{Binding, Finder};
use finders::straight::StraightFinder;
use hashed::finder::HashedFinder;
use hashed::slot::Slot;
use items::label::Label;
use summary::opening::{check_open, open};
use summary::summary::Summary;
use table::place::Place;

const FILLER: Label = Label { number: 0 };

const HITS: [u32; 12] = [7, 9, 7, 4, 8, 7, 65539, 9, 4, 4, 7, 8];

// The number, count and error of each entry, by position, after the hits with three counters; or the refusal's number.
fn row<F: Finder<Label>>(finder: &mut F) -> Result<[(u32, u32, u32); 3], u8> {
    count(finder)
        .map(|lines| lines.map(figures))
        .map_err(u8::from)
}

fn figures(line: Line<Label>) -> (u32, u32, u32) {
    (line.item.number, line.count, line.error)
}

fn count<F: Finder<Label>>(finder: &mut F) -> Result<[Line<Label>; 3], Refusal> {
    let mut places = [Place::vacant(FILLER); 3];
    check_open(places.len(), finder)?;
    let mut summary = open(&mut places);
    for number in HITS {
        summary.hit(finder, Label { number })?;
    }
    let mut lines = [Line {
        item: FILLER,
        count: 0,
        error: 0,
        sure: false,
    }; 3];
    summary.top(3, &mut lines)?;
    Ok(lines)
}

#[test]
fn both_finders_count_alike(rt: HostRuntime) {
    let mut bindings = [Binding {
        item: FILLER,
        place: 0,
    }; 3];
    let mut slots = [Slot::vacant(); 3];
    let straight = row(&mut StraightFinder::over(&mut bindings));
    let hashed = row(&mut HashedFinder::over(&mut slots));
    assert_eq!(rt; straight, hashed);
    assert_eq!(rt; straight, Ok([(8, 4, 3), (7, 4, 0), (4, 4, 2)]));
}
