ghost use Rattle.std.specs.Prelude.{◌≡◌};
ghost use Rattle.model.specs.Looks.{zeroed};

use model::names::Name;

// Sets every slot to component 0, address 0.
pub fn wipe(slots: &mut [Name])
    ensures { slots.new ≡ zeroed slots.old }
{
    slots.fill(Name::default());
}
