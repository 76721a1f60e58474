ghost use Rattle.std.specs.Prelude.{◌≡◌, Bool, true};
ghost use Rattle.std.specs.declared.cmp.Ordering.TheVariants.{Less};
ghost use Rattle.std.specs.declared.cmp.Ordering.{Ordering};
ghost use Rattle.std.specs.Ordering.{is_eq, ordering_reverse};

// An element with a total order in which "same" means the same in every field.
pub trait Ordered: Ord + Copy {
    // Below, same or above: how the first stands to the second.
    ghost rank: { Self → Self → Ordering };

    ghost same: { Self → Self → Bool };

    // What `cmp` answers.
    ghost says: { (x y : Self) → Self.Ord.cmp x y ≡ rank x y };

    // Above is the converse of below.
    ghost flips: { (x y : Self) → rank x y ≡ ordering_reverse (rank y x) };

    // Below is transitive.
    ghost rises: { (x y z : Self) → rank x y ≡ Less → rank y z ≡ Less → rank x z ≡ Less };

    // The two tell the same elements.
    ghost agrees: { (x y : Self) → is_eq (rank x y) ≡ same x y };

    // The same is equal, in every field.
    ghost whole: { (x y : Self) → same x y ≡ true → x ≡ y };
}
