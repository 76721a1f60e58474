ghost use Rattle.std.specs.Prelude.{◌≡◌, [], map};
ghost use Rattle.std.specs.List.{list_any};
ghost use Rattle.lists.specs.Held.{held};
ghost use Rattle.model.specs.Model.{renaming, lists};
ghost use Rattle.model.specs.Edits.{pair, plug, ended, edited};
ghost use Rattle.layers.specs.Meanings.{renaming_means, renaming_edit};
ghost use Rattle.layers.specs.Pairs.{two, leads_lem};

use crate::pairs::{Pair, is_from, rename, replace};
use lists::ArrayVec;
use model::faults::Fault;
use model::names::Name;
use space::Space;
use space::layer::Layer;

// The most pairs that a renaming holds.
const PAIRS: usize = 32;

// The space below, with some components renamed.
#[derive(Drop)]
pub struct Renaming<B> {
    pairs: ArrayVec<Pair, PAIRS>,
    below: B,
}

// An edit of a renaming: one pair more, or another space below it.
#[derive(Drop)]
pub enum RenamingEdit<B> {
    Pair { from: u32, to: u32 },
    Plug(B),
}

impl<B: Space> Renaming<B> {
    // A renaming with no pairs yet.
    pub fn new(below: B) -> Renaming<B>
        ensures { (renaming_means B.Space.means result).shape ≡ renaming [] (B.Space.means below).shape }
    {
        Renaming {
            pairs: ArrayVec::new(Pair::default()),
            below,
        }
    }

    // Renames one component more: 5 where it is renamed already, then 7 where no place is free.
    #[tactic(auto, using(crate::proofs::Renames::pair_asked))]
    pub fn pair(&mut self, from: u32, to: u32) -> Result<(), Fault>
        ensures answer { ended result ≡ (edited (renaming_means B.Space.means self.old).shape (pair from to)).0 }
        ensures kept { (renaming_means B.Space.means self.new).shape ≡ (edited (renaming_means B.Space.means self.old).shape (pair from to)).1 }
    {
        if is_from(self.pairs.as_slice(), from) {
            return Err(Fault::AlreadyThere);
        }
        let added = self.pairs.push(Pair { from, to });
        added.map_err(|_| Fault::TableFull)
    }

    // Puts another space below, and hands back the one that was there.
    // One line in each layer: a trait of them would need a line of its own for each field.
    pub fn plug(&mut self, below: B) -> B
        ensures old { result ≡ self.old.below }
        ensures kept { (renaming_means B.Space.means self.new).shape ≡ (edited (renaming_means B.Space.means self.old).shape (plug (B.Space.means below).shape)).1 }
    {
        std::mem::replace(&mut self.below, below)
    }

    // Whether a component is renamed to that of the name, and the list below has it at the name's address.
    fn leads(&self, component: u32, address: u64, name: Name) -> bool
        ensures { result ≡ leads_lem (map two (held self.now.pairs)) (lists (B.Space.means self.now.below).shape address) name component }
    {
        replace(self.pairs.as_slice(), component) == name.component
            && self.below.meets(address, Name { component, ..name })
    }

    // The same of some pair's component.
    fn pair_leads(&self, address: u64, name: Name) -> bool
        ensures { result ≡ list_any (λ (p : Pair). leads_lem (map two (held self.now.pairs)) (lists (B.Space.means self.now.below).shape address) name p.from) (held self.now.pairs) }
    {
        self.pairs
            .as_slice()
            .iter()
            .any(|p| self.leads(p.from, address, name))
    }
}

impl<B: Space> Space for Renaming<B> {
    ghost means = { renaming_means B.Space.means };

    fn look(&self, address: u64, slots: &mut [Name]) -> Result<(usize, u64), Fault> {
        let (count, reach) = self.below.look(address, slots)?;
        rename(self.pairs.as_slice(), &mut slots[..count]);
        Ok((count, reach))
    }

    // A name that the renaming gives comes from its own component, or from that of a pair.
    fn meets(&self, address: u64, name: Name) -> bool {
        self.leads(name.component, address, name) || self.pair_leads(address, name)
    }
}

impl<B: Space + Drop> Layer for Renaming<B> {
    type Edit = RenamingEdit<B>;

    ghost meaning = { renaming_edit B.Space.means };

    fn edit(&mut self, e: RenamingEdit<B>) -> Result<(), Fault> {
        match e {
            RenamingEdit::Pair { from, to } => self.pair(from, to),
            RenamingEdit::Plug(below) => {
                // What was there may own something, which is let go here.
                let _old = self.plug(below);
                Ok(())
            }
        }
    }
}
