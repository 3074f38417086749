// Taking a place out of a list and putting one in, each by a constant number of accesses.
ghost use Rattle.std.specs.Prelude.{◌≡◌, Some, None};
ghost use Rattle.std.specs.Borrow.{sem};
ghost use Rattle.std.specs.List.{IsItemAtMut};
ghost use Rattle.std.specs.Slice.{slice_follows_get};
ghost use Rattle.links.specs.Kinds.{put_link};
ghost use Rattle.links.specs.Tables.{edit_at};
ghost use Rattle.links.specs.Lists.{link_in, unlinking, linking, end_out_lem, ends_out, ends_in, Unlinked, Linked};

use crate::ends::Ends;
use crate::kind::Links;
use crate::neighbours::{Neighbours, Side};

/// The link from the place `at` to its neighbour on a side.
#[tactic(auto, using(crate::proofs::Tables::read_found, crate::proofs::Tables::read_past))]
pub fn neighbour<P, K: Links<P>>(places: &[P], side: Side, at: u16) -> Option<u16>
    ensures { result ≡ link_in K.Links.accessors side places.now at }
{
    K::link(places.get(at as usize)?, side)
}

/// The place `at`, to be written; none past the table's end. A slice's `get_mut` does not say what the slice then holds.
pub fn place_mut<P>(places: &mut [P], at: u16) -> Option<&mut P>
    ensures item { IsItemAtMut places.old at result }
    ensures* writes_back { sem 𝓛 (slice_follows_get P.row places.entry at result) }
{
    if (at as usize) < places.len() {
        Some(&mut places[at as usize])
    } else {
        None
    }
}

// Writes the link on a side of the place that `at` leads to, if it leads to one.
#[tactic(auto, using(crate::proofs::Tables::put_place, crate::proofs::Tables::edit_past))]
fn put<P, K: Links<P>>(places: &mut [P], side: Side, at: Option<u16>, link: Option<u16>)
    ensures { places.new ≡ edit_at at (put_link K.Links.accessors side link) places.old }
{
    if let Some(i) = at
        && let Some(place) = place_mut(places, i)
    {
        K::set_link(place, side, link);
    }
}

// An end of a list that is kept while the link towards it leads to a place, and else is the one given.
fn end_out(near: Option<u16>, far: Option<u16>, end: Option<u16>) -> Option<u16>
    ensures { result ≡ end_out_lem near far end }
{
    if near.is_some() { end } else { far }
}

impl Ends {
    // Makes the neighbours of the place `at` each other's, and the ends what they then are.
    fn skip<P, K: Links<P>>(&mut self, places: &mut [P], at: u16)
        ensures table { places.new ≡ unlinking K.Links.accessors at places.old }
        ensures ends { self.new ≡ ends_out K.Links.accessors places.old at self.old }
    {
        let prev = neighbour::<P, K>(places, Side::Prev, at);
        let next = neighbour::<P, K>(places, Side::Next, at);
        put::<P, K>(places, Side::Next, prev, next);
        put::<P, K>(places, Side::Prev, next, prev);
        self.first = end_out(prev, next, self.first);
        self.last = end_out(next, prev, self.last);
    }

    /// Takes the place `at` out of the list with these ends.
    pub fn unlink<P, K: Links<P>>(&mut self, places: &mut [P], at: u16)
        ensures { Unlinked K.Links.accessors places.old places.new at self.old self.new }
    {
        self.skip::<P, K>(places, at);
    }

    // Writes the four links that put the place `at` in between the neighbours, and the ends.
    fn tie<P, K: Links<P>>(&mut self, places: &mut [P], beside: Neighbours, at: u16)
        ensures table { places.new ≡ linking K.Links.accessors beside.prev beside.next at places.old }
        ensures ends { self.new ≡ ends_in beside.prev beside.next at self.old }
    {
        put::<P, K>(places, Side::Next, beside.prev, Some(at));
        put::<P, K>(places, Side::Prev, beside.next, Some(at));
        put::<P, K>(places, Side::Next, Some(at), beside.next);
        put::<P, K>(places, Side::Prev, Some(at), beside.prev);
        self.first = end_out(beside.prev, Some(at), self.first);
        self.last = end_out(beside.next, Some(at), self.last);
    }

    /// Puts the place `at`, which is in no list of this kind, into the list with these ends, in between two neighbours there.
    pub fn link<P, K: Links<P>>(&mut self, places: &mut [P], beside: Neighbours, at: u16)
        ensures { Linked K.Links.accessors places.old places.new beside.prev beside.next at self.old self.new }
    {
        self.tie::<P, K>(places, beside, at);
    }

    /// Puts the place `at`, which is in no list of this kind, at the end of the list with these ends.
    pub fn append<P, K: Links<P>>(&mut self, places: &mut [P], at: u16)
        ensures { Linked K.Links.accessors places.old places.new self.old.last None at self.old self.new }
    {
        let beside = Neighbours {
            prev: self.last,
            next: None,
        };
        self.link::<P, K>(places, beside, at);
    }
}
