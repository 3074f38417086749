// A short morning of label redraws, counted with four counters: what each redraw changed at the top, and what the
// counters answer at the end.
use calls::answers::{FrequentList, Line, TopList};
use finders::finder::Finder;
use items::label::Label;
use std::io;
use summary::summary::Summary;

const MORNING: [u32; 15] = [
    118, 204, 118, 305, 118, 204, 412, 204, 118, 77, 305, 118, 204, 560, 118,
];

// How many positions are watched, and asked for at the end.
const TOP: usize = 2;

// The handle that prints goes beside what is told of, as it does everywhere: a type for both would be opened in each line.
fn tell_redraw<S: Summary<Label>, F: Finder<Label>>(
    rt: &impl Print,
    summary: &mut S,
    finder: &mut F,
    number: u32,
) -> io::Result<()> {
    match summary.watched_hit(finder, TOP, Label { number }) {
        Ok((Some(_), Some(left))) => println!(rt;
            "  label {number:<3}  enters the top {TOP}, and label {} leaves it",
            left.number
        ),
        Ok((Some(_), None)) => println!(rt; "  label {number:<3}  enters the top {TOP}"),
        Ok((None, _)) => println!(rt; "  label {number}"),
        Err(refusal) => println!(rt; "  label {number:<3}  refused with {}", u8::from(refusal)),
    }
}

fn tell_bracket<S: Summary<Label>, F: Finder<Label>>(
    rt: &impl Print,
    summary: &S,
    finder: &F,
    number: u32,
) -> io::Result<()> {
    match summary.bracket(finder, &Label { number }) {
        Ok((lower, upper)) => println!(rt; "  label {number:<3}  {lower} to {upper} times"),
        Err(refusal) => println!(rt; "  label {number:<3}  refused with {}", u8::from(refusal)),
    }
}

fn tell_line(rt: &impl Print, line: Line<Label>) -> io::Result<()> {
    let number = line.item.number;
    let sure = if line.sure { ", sure" } else { "" };
    println!(rt;
        "  label {number:<3}  counted {} times, up to {} of them in error{sure}",
        line.count, line.error
    )
}

fn tell_frequent<S: Summary<Label>>(
    rt: &impl Print,
    summary: &S,
    lines: &mut [Line<Label>],
) -> io::Result<()> {
    match summary.frequent(1, 5, lines) {
        Ok(
            FrequentList {
                lines: count,
                threshold,
                complete,
            },
        ) => {
            println!(rt;
                "Busy: at least a fifth of the {} redraws, which is {threshold}.",
                summary.total()
            )?;
            for line in lines.iter().take(count) {
                tell_line(rt, *line)?;
            }
            if complete {
                println!(rt;
                    "  The list is complete: no other label was redrawn {threshold} times or more."
                )?;
            }
            Ok(())
        }
        Err(refusal) => println!(rt; "Busy: refused with {}", u8::from(refusal)),
    }
}

fn tell_top<S: Summary<Label>>(
    rt: &impl Print,
    summary: &S,
    lines: &mut [Line<Label>],
) -> io::Result<()> {
    match summary.top(TOP, lines) {
        Ok(
            TopList {
                lines: count,
                guaranteed,
                ordered,
            },
        ) => {
            println!(rt; "The top {TOP}:")?;
            for line in lines.iter().take(count) {
                tell_line(rt, *line)?;
            }
            if guaranteed {
                println!(rt;
                    "  Guaranteed: no other label was redrawn more often than any of these."
                )?;
            }
            if ordered {
                println!(rt; "  Ordered: each was redrawn at least as often as the next.")?;
            }
            Ok(())
        }
        Err(refusal) => println!(rt; "The top {TOP}: refused with {}", u8::from(refusal)),
    }
}

pub(crate) fn count_morning<S: Summary<Label>, F: Finder<Label>>(
    rt: &impl Print,
    summary: &mut S,
    finder: &mut F,
    lines: &mut [Line<Label>],
) -> io::Result<()> {
    println!(rt; "")?;
    println!(rt;
        "A morning of redraws is counted, with {} counters for all labels.",
        summary.size()
    )?;
    for number in MORNING {
        tell_redraw(rt, summary, finder, number)?;
    }
    println!(rt; "")?;
    println!(rt; "How often was a label redrawn, at least and at most?")?;
    for number in [118, 560, 77] {
        tell_bracket(rt, summary, finder, number)?;
    }
    println!(rt; "")?;
    tell_frequent(rt, summary, lines)?;
    println!(rt; "")?;
    tell_top(rt, summary, lines)
}
