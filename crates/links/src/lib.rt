// Lists that are linked both ways through the places of a table. A place may stand in several lists of different
// kinds; a kind of list is a pair of fields for the links, and is told by a type that implements `Links`.
// The places are lent and there is no heap, so links are numbers of places. A function that is given a number past the
// table's end reads no link and writes nothing.
#![tactic(auto)]

pub mod ends;
pub mod kind;
pub mod lists;
pub mod neighbours;
