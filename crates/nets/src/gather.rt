ghost use Rattle.std.specs.Prelude.{◌≡◌, ◌<◌, Bool, length, MatchResult};
ghost use Rattle.model.specs.Names.{holds};
ghost use Rattle.model.specs.Model.{lists};
ghost use Rattle.model.specs.Looks.{filled};
ghost use Rattle.model.specs.Faults.{plain, told};
ghost use Rattle.nets.specs.Gathering.{each, Gathered};

use model::faults::Fault;
use model::names::Name;
use space::Space;
use space::slots::wipe;
use walks::notes::Note;

// Items and span are lent apart: the contract speaks of any list of notes.
// The names that noted items stand for over the space below: how many, and how far up, of `span` at most, each list found below stays the same-name but raised.
pub(crate) fn gather<B: Space>(
    below: &B,
    items: &[Note],
    span: u64,
    slots: &mut [Name],
) -> Result<(usize, u64), Fault>
    ensures answer { MatchResult result
        (λ g. Gathered (lists (B.Space.means below.now).shape) items.now span g.0 g.1 (length slots.old))
        (λ e. (told e ≡ plain 9) × (length slots.old < length (each (lists (B.Space.means below.now).shape) items.now))) }
    ensures buffer { slots.new ≡ filled (each (lists (B.Space.means below.now).shape) items.now) slots.old }
{
    let answer = put_each(below, items, span, slots);
    if answer.is_err() {
        wipe(slots);
    }
    answer
}

// Puts the names into the slots, item after item, as long as there is room.
fn put_each<B: Space>(
    below: &B,
    items: &[Note],
    span: u64,
    slots: &mut [Name],
) -> Result<(usize, u64), Fault>
    ensures { MatchResult result
        (λ g. Gathered (lists (B.Space.means below.now).shape) items.now span g.0 g.1 (length slots.old)
        × (slots.new ≡ filled (each (lists (B.Space.means below.now).shape) items.now) slots.old))
        (λ e. (told e ≡ plain 9) × (length slots.old < length (each (lists (B.Space.means below.now).shape) items.now))) }
{
    // Counted by hand: an item puts one name or many, so no iterator gives the place.
    let mut count: usize = 0;
    let mut room = span;
    for item in items {
        match *item {
            Note::Own(name) => {
                if count >= slots.len() {
                    return Err(Fault::BufferShort);
                }
                // By index: through `get_mut` the proof did not close.
                slots[count] = name;
                count += 1;
            }
            Note::Arrival(address) => {
                let (more, reach) = below.look(address, &mut slots[count..])?;
                count += more;
                room = room.min(reach - address);
            }
        }
    }
    Ok((count, room))
}

// Whether noted items lead to a name.
pub(crate) fn any_meets<B: Space>(below: &B, items: &[Note], name: Name) -> bool
    ensures { result ≡ holds (each (lists (B.Space.means below.now).shape) items.now) name }
{
    items.iter().any(|item| match *item {
        Note::Own(own) => own == name,
        Note::Arrival(address) => below.meets(address, name),
    })
}
