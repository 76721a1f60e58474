ghost use Rattle.sets.specs.Laws.{AboveTurns, BelowChains, OneHolds, PlaceIsTheOne, SameIsEqual, SetHasTheSame, SetIsTheOne, SetRises};

// What holds of every order of any type, and of every set made by it, as theorems.
// It does nothing: the check asks for what its contract says.
pub fn sets_stand<T>() -> u8
    ensures one { OneHolds T }
    ensures chains { BelowChains T }
    ensures turns { AboveTurns T }
    ensures equal { SameIsEqual T }
    ensures rises { SetRises T }
    ensures members { SetHasTheSame T }
    ensures only { SetIsTheOne T }
    ensures place { PlaceIsTheOne T }
{
    0
}
