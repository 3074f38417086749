// An entry of the row: an item, how often it was counted, and by how much that may be too high.
#[derive(Clone, Copy, Debug, PartialEq, Eq)]
pub struct Entry<T> {
    pub item: T,
    pub count: u32,
    pub error: u32,
}
