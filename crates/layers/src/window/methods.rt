ghost use Rattle.std.specs.Prelude.{◌≡◌, false, [], ◌∷◌, length, MatchResult};
ghost use Rattle.std.proofs.Math.Option.{none, some};
ghost use Rattle.model.specs.Nets.{within};
ghost use Rattle.model.specs.Model.{window, lists};
ghost use Rattle.model.specs.Edits.{plug, edited, asked, range_rises, target_fits};
ghost use Rattle.model.specs.Faults.{told};
ghost use Rattle.model.specs.Looks.{LookAnswer, ReachIs, filled};
ghost use Rattle.layers.specs.Meanings.{window_means, window_edit, clear_to};

use crate::window::{Window, WindowEdit};
use model::faults::Fault;
use model::names::Name;
use model::ranges::check_target;
use space::Space;
use space::layer::Layer;

impl<B: Space> Window<B> {
    // A window on a space: 3 where its range is reversed, then 4 where its target passes the last address. A refusal hands the space back.
    pub fn new(lo: u64, hi: u64, base: u64, below: B) -> Result<Window<B>, (Fault, B)>
        ensures { MatchResult result
            (λ w. (asked (range_rises lo hi ∷ target_fits lo hi base ∷ []) ≡ none) × ((window_means B.Space.means w).shape ≡ window lo hi base (B.Space.means below).shape))
            (λ e. (asked (range_rises lo hi ∷ target_fits lo hi base ∷ []) ≡ some (told e.0)) × (e.1 ≡ below)) }
    {
        match check_target(lo, hi, base) {
            Ok(()) => Ok(Window {
                lo,
                hi,
                base,
                below,
            }),
            Err(f) => Err((f, below)),
        }
    }

    // Puts another space below, and hands back the one that was there.
    // One line in each layer: a trait of them would need a line of its own for each field.
    pub fn plug(&mut self, below: B) -> B
        ensures old { result ≡ self.old.below }
        ensures kept { (window_means B.Space.means self.new).shape ≡ (edited (window_means B.Space.means self.old).shape (plug (B.Space.means below).shape)).1 }
    {
        std::mem::replace(&mut self.below, below)
    }
}

impl<B: Space> Space for Window<B> {
    ghost means = { window_means B.Space.means };

    fn look(&self, address: u64, slots: &mut [Name]) -> Result<(usize, u64), Fault>
        ensures answer { LookAnswer (lists (window_means B.Space.means self.now).shape) address (length slots.old) result }
        ensures buffer { slots.new ≡ filled (lists (window_means B.Space.means self.now).shape address) slots.old }
        ensures reach { within self.now.lo self.now.hi address ≡ false → ReachIs (clear_to self.now.lo address) result }
    {
        // Two tests and no range, since below and above it answer differently.
        if address < self.lo {
            return Ok((0, self.lo - 1));
        }
        if address > self.hi {
            return Ok((0, u64::MAX));
        }
        let shifted = self.base + (address - self.lo);
        let (count, reach) = self.below.look(shifted, slots)?;
        let room = (reach - shifted).min(self.hi - address);
        Ok((count, address + room))
    }

    fn meets(&self, address: u64, name: Name) -> bool {
        (self.lo..=self.hi).contains(&address)
            && self.below.meets(self.base + (address - self.lo), name)
    }
}

impl<B: Space + Drop> Layer for Window<B> {
    type Edit = WindowEdit<B>;

    ghost meaning = { window_edit B.Space.means };

    fn edit(&mut self, e: WindowEdit<B>) -> Result<(), Fault> {
        match e {
            WindowEdit::Plug(below) => {
                // What was there may own something, which is let go here.
                let _old = self.plug(below);
                Ok(())
            }
        }
    }
}
