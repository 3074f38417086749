// What the questions answer, besides a bracket, which is the pair of its figures, lower and upper, and a watched hit,
// which is the pair of the item that entered and the item that left.

// The marks are fields of their own and no Options: the figures beside them stand whether a mark is set or not.

// A line of a list.
#[derive(Clone, Copy, Debug, PartialEq, Eq)]
pub struct Line<T> {
    pub item: T,
    pub count: u32,
    pub error: u32,
    // Sure: the item has at least as many hits as the frequent list's threshold. No line of a top list is marked.
    pub sure: bool,
}

#[derive(Clone, Copy, Debug, PartialEq, Eq)]
pub struct FrequentList {
    // How many lines the list has: it is written into lent ones, since there is no heap.
    pub lines: usize,
    // The least count that is listed.
    pub threshold: u32,
    // Complete: no item with as many hits as the threshold is missing.
    pub complete: bool,
}

#[derive(Clone, Copy, Debug, PartialEq, Eq)]
pub struct TopList {
    pub lines: usize,
    // Guaranteed: every listed item has at least as many hits as every item that is not listed.
    pub guaranteed: bool,
    // Ordered: along the first lines, as many as were asked for, hits never rise.
    pub ordered: bool,
}
