ghost use Rattle.std.specs.Prelude.{◌≡◌, ◌≤◌, ◌++◌, map, length, take, drop, nat_eq};
ghost use Rattle.std.specs.List.{find, list_any};
ghost use Rattle.std.specs.Option.{option_map};
ghost use Rattle.model.specs.Names.{replaced, renamed};
ghost use Rattle.layers.specs.Pairs.{two};

use model::names::Name;

// One component, and the one that it is renamed to.
#[derive(Clone, Copy, Debug, Default)]
pub struct Pair {
    pub from: u32,
    pub to: u32,
}

// What the first pair from a component renames it to, if there is one.
fn target(pairs: &[Pair], component: u32) -> Option<u32>
    ensures { result ≡ option_map (λ (p : Pair). p.to) (find (λ (p : Pair). nat_eq p.from component) pairs.now) }
{
    pairs.iter().find(|p| p.from == component).map(|p| p.to)
}

// The component that another is renamed to: the first pair from it decides.
#[tactic(auto, using(crate::proofs::Scans::replaced_by))]
pub(crate) fn replace(pairs: &[Pair], component: u32) -> u32
    ensures { result ≡ replaced (map two pairs.now) component }
{
    target(pairs, component).unwrap_or(component)
}

// Whether there is a pair from a component.
pub(crate) fn is_from(pairs: &[Pair], component: u32) -> bool
    ensures { result ≡ list_any (λ (p : Pair). nat_eq p.from component) pairs.now }
{
    pairs.iter().any(|p| p.from == component)
}

// Renames each of the names, in place.
#[tactic(auto, using(crate::proofs::Scans::renamed_more))]
pub(crate) fn rename(pairs: &[Pair], names: &mut [Name])
    ensures { names.new ≡ map (renamed (map two pairs.now)) names.old }
{
    for name in names {
        name.component = replace(pairs, name.component);
    }
}
