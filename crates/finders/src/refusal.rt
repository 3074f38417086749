// Why a finder says no.
ghost use Rattle.std.specs.Prelude.{◌≡◌};
ghost use Rattle.finders.specs.Refusals.{number_of, unless_refused, make_refusal, enter_refusal_at};

// The most slots that a finder is made over.
pub const MOST_SLOTS: usize = 1024;

// Each refusal's value is its number. It has no text here: what an item is called is for the program to say.
#[derive(Clone, Copy, Debug, PartialEq, Eq, Hash)]
pub enum Refusal {
    // The same item is held already.
    Held = 12,
    // As many items are held as fit.
    Full = 13,
    // No same item is held.
    Absent = 14,
    // No slots were supplied, or more than 1,024.
    Slots = 15,
}

impl From<Refusal> for u8 {
    ghost from_gives = { λ refusal number. number ≡ number_of refusal };

    fn from(refusal: Refusal) -> u8 {
        refusal as u8
    }
}

// Whether a finder can be made over so many slots: asked before it is made.
pub fn check_slots(slots: usize) -> Result<(), Refusal>
    ensures { result ≡ unless_refused (make_refusal slots) }
{
    if slots == 0 || slots > MOST_SLOTS {
        return Err(Refusal::Slots);
    }
    Ok(())
}

// Whether an item can be entered, by where it was found and how many are held of what fits: asked before a finder writes.
pub fn check_enter(found: Option<usize>, held: usize, capacity: usize) -> Result<(), Refusal>
    ensures { result ≡ unless_refused (enter_refusal_at found held capacity) }
{
    if found.is_some() {
        return Err(Refusal::Held);
    }
    if held >= capacity {
        return Err(Refusal::Full);
    }
    Ok(())
}
