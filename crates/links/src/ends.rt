// The two ends of a list, as its owner keeps them: a list that has no place has none.

#[derive(Clone, Copy, Debug, PartialEq, Eq, Default)]
pub struct Ends {
    pub first: Option<u16>,
    pub last: Option<u16>,
}
