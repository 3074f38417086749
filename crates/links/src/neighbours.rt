// The neighbours of a place in a list: the places next to it on both sides, where it has some.
ghost use Rattle.std.specs.Prelude.{◌≡◌};
ghost use Rattle.links.specs.Kinds.{link_of, put_link, both_links};

/// On to the next place of a list, or back to the previous one.
#[derive(Clone, Copy, Debug, PartialEq, Eq)]
pub enum Side {
    Next,
    Prev,
}

#[derive(Clone, Copy, Debug, PartialEq, Eq, Default)]
pub struct Neighbours {
    pub next: Option<u16>,
    pub prev: Option<u16>,
}

impl Neighbours {
    /// The neighbour on a side.
    pub fn on(self, side: Side) -> Option<u16>
        ensures { result ≡ link_of both_links side self }
    {
        match side {
            Side::Next => self.next,
            Side::Prev => self.prev,
        }
    }

    /// Writes which is the neighbour on a side, and leaves the other.
    pub fn set(&mut self, side: Side, link: Option<u16>)
        ensures { self.new ≡ put_link both_links side link self.old }
    {
        match side {
            Side::Next => self.next = link,
            Side::Prev => self.prev = link,
        }
    }
}
