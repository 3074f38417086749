// The slots and the head of the free ones: walking along a chain, and moving a slot from one chain to another.
ghost use Rattle.std.specs.Prelude.{◌≡◌, ◌%◌, ◌<◌, ◌≤◌, length, Some, None, MatchOption, slice_index_or, slice_set};
ghost use Rattle.hashed.specs.Slots.{entries, links, heads, Sound};
ghost use Rattle.hashed.specs.Steps.{Columns, below, Cleared, SpotInside, relinked, reheaded, Follows, entry_at, hit_at, Located, Missing};
ghost use Rattle.std.specs.Option.{IsSome};

use crate::slot::{Entry, Held, Slot};
use items::kind::Kind;

// A slot, its chain, and the slot before it there.
#[derive(Clone, Copy)]
pub(crate) struct Spot {
    pub(crate) chain: usize,
    pub(crate) before: Option<u16>,
    pub(crate) here: u16,
}

// How far a walk along a chain has come: the slot that it is at, if there is one, and the one before.
#[derive(Clone, Copy)]
struct Cursor {
    before: Option<u16>,
    at: Option<u16>,
}

// The slots, lent, and the head of the free ones. It promises nothing: a move breaks the chains on the way, and what it
// does to each column of the slots is proved by itself. That an index is below the number of slots comes from the chains,
// so the steps of a move ask for it.
#[derive(Drop)]
pub(crate) struct Table<'a, T> {
    pub(crate) slots: &'a mut [Slot<T>],
    pub(crate) free: Option<u16>,
}

#[tactic(auto, using(crate::proofs::Columns::columns))]
impl<'a, T: Copy + Drop> Table<'a, T> {
    // Makes every slot free and every chain empty, whatever the slots held.
    pub(crate) fn over(slots: &'a mut [Slot<T>]) -> Table<'a, T>
        requires { length slots.old ≤ 1024 }
        ensures size { length result.slots.now ≡ length slots.old }
        ensures free { result.free ≡ below (length result.slots.now) }
        ensures cleared { Cleared result.slots.now (length result.slots.now) }
    {
        let mut free = None;
        for (i, slot) in slots.iter_mut().enumerate() {
            *slot = Slot {
                place: 0,
                held: None,
                link: free,
                head: None,
            };
            free = Some(i as u16);
        }
        Table { slots, free }
    }

    // Where a walk goes on from the slot.
    fn behind(&self, here: u16) -> Cursor
        requires { here < length self.now.slots.now }
        ensures { Follows (links self.now.slots.now) here result.before result.at }
    {
        Cursor {
            before: Some(here),
            at: self.slots[here as usize].link,
        }
    }

    // The number of the chain of a mark.
    fn chain_of(&self, mark: u16) -> usize
        requires { 0 < length self.now.slots.now }
        ensures value { result ≡ mark % length self.now.slots.now }
        ensures below { result < length self.now.slots.now }
    {
        mark as usize % self.slots.len()
    }

    // Takes the first free slot, `here`, out of the free ones and puts it in front of the chain of the entry's mark.
    pub(crate) fn insert(&mut self, here: u16, entry: Entry<T>)
        requires { here < length self.old.slots.now }
        ensures free { self.new.free ≡ slice_index_or (links self.old.slots.now) here None }
        ensures moved { Columns self.new.slots.now (slice_set (entries self.old.slots.now) here (Some entry)) (slice_set (links self.old.slots.now) here (slice_index_or (heads self.old.slots.now) (entry.mark % length self.old.slots.now) None)) (slice_set (heads self.old.slots.now) (entry.mark % length self.old.slots.now) (Some here)) }
    {
        let i = here as usize;
        let chain = self.chain_of(entry.mark);
        self.free = self.slots[i].link;
        self.slots[i] = Slot {
            place: entry.binding.place,
            held: Some(Held {
                item: entry.binding.item,
                mark: entry.mark,
            }),
            link: self.slots[chain].head,
            ..self.slots[i]
        };
        self.slots[chain].head = Some(here);
    }

    // Takes the slot out of its chain: what points to it, the slot before it or else the head, points to the next one.
    fn unlink(&mut self, spot: Spot)
        requires { SpotInside self.old.slots.now spot }
        ensures free { self.new.free ≡ self.old.free }
        ensures moved { Columns self.new.slots.now (entries self.old.slots.now) (relinked spot.before (slice_index_or (links self.old.slots.now) spot.here None) (links self.old.slots.now)) (reheaded spot.before spot.chain (slice_index_or (links self.old.slots.now) spot.here None) (heads self.old.slots.now)) }
    {
        let next = self.slots[spot.here as usize].link;
        match spot.before {
            None => self.slots[spot.chain].head = next,
            Some(before) => self.slots[before as usize].link = next,
        }
    }

    // Takes the slot out of its chain, and makes it the first free one.
    pub(crate) fn remove(&mut self, spot: Spot)
        requires { SpotInside self.old.slots.now spot }
        ensures free { self.new.free ≡ Some spot.here }
        ensures moved { Columns self.new.slots.now (slice_set (entries self.old.slots.now) spot.here None) (slice_set (relinked spot.before (slice_index_or (links self.old.slots.now) spot.here None) (links self.old.slots.now)) spot.here self.old.free) (reheaded spot.before spot.chain (slice_index_or (links self.old.slots.now) spot.here None) (heads self.old.slots.now)) }
    {
        let i = spot.here as usize;
        self.unlink(spot);
        self.slots[i] = Slot {
            held: None,
            link: self.free,
            ..self.slots[i]
        };
        self.free = Some(spot.here);
    }
}

#[tactic(auto, using(crate::proofs::Columns::columns))]
impl<'a, T: Kind + Copy + Drop> Table<'a, T> {
    // The number of the chain that an item is looked for in.
    fn chain_for(&self, item: &T) -> usize
        requires { 0 < length self.now.slots.now }
        ensures value { result ≡ T.Kind.mark_of item.now % length self.now.slots.now }
        ensures below { result < length self.now.slots.now }
    {
        self.chain_of(item.mark())
    }

    // Whether the item of a slot that is in use is the same. That it is in use comes from the chains: with `is_some_and` in
    // place of the proof, a look-up that misses takes a third longer.
    fn holds(&self, here: u16, item: &T) -> bool
        requires inside { here < length self.now.slots.now }
        requires used { IsSome (entry_at (entries self.now.slots.now) here) }
        ensures { result ≡ hit_at T.Kind.same (entries self.now.slots.now) item.now here }
    {
        let held = self.slots[here as usize].held;
        item.is_same(&held.unwrap().item)
    }

    // Walks along the chain of the item to the slot that has a same one. The walk is a loop and no iterator: that would
    // have to carry the chain that is ahead in its type, to show that it ends and stays inside, for this one use.
    pub(crate) fn locate(&self, item: &T) -> Option<Spot>
        requires { ∥ Sound self.now.slots.now self.now.free ∥₁ }
        ensures { MatchOption result (Missing T.Kind.same self.now.slots.now item.now (T.Kind.mark_of item.now % length self.now.slots.now)) (λ s. (s.chain ≡ T.Kind.mark_of item.now % length self.now.slots.now) × Located T.Kind.same self.now.slots.now item.now s) }
    {
        if self.slots.is_empty() {
            return None;
        }
        let chain = self.chain_for(item);
        let mut cursor = Cursor {
            before: None,
            at: self.slots[chain].head,
        };
        while let Some(here) = cursor.at {
            if self.holds(here, item) {
                return Some(Spot {
                    chain,
                    before: cursor.before,
                    here,
                });
            }
            cursor = self.behind(here);
        }
        None
    }
}
