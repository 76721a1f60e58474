ghost use Rattle.std.specs.Prelude.{◌≤◌};
ghost use Rattle.model.specs.Nets.{TargetFits};

pub mod methods;

// The addresses `lo` to `hi`, both included, of a space of its own: `a` is `base + (a - lo)` of the space below.
#[derive(Drop)]
pub struct Window<B> {
    lo: u64,
    hi: u64,
    base: u64,
    below: B,
    ghost checked: { (lo ≤ hi) × TargetFits lo hi base },
}

// An edit of a window: another space is put below it.
#[derive(Drop)]
pub enum WindowEdit<B> {
    Plug(B),
}
