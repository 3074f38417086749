// A kind of list: which fields of a place hold its links.
ghost use Rattle.std.specs.Prelude.{◌≡◌};
ghost use Rattle.links.specs.Kinds.{Accessors, Lawful, link_of, put_link};

use crate::neighbours::Side;

pub trait Links<P> {
    // How the two links of a place are read, and what a place is once one of them is written.
    ghost accessors: { Accessors P };

    fn link(place: &P, side: Side) -> Option<u16>
        ensures { result ≡ link_of accessors side place.now };

    fn set_link(place: &mut P, side: Side, link: Option<u16>)
        ensures { place.new ≡ put_link accessors side link place.old };

    ghost lawful: { Lawful accessors };
}
