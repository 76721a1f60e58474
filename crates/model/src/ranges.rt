ghost use Rattle.std.specs.Prelude.{◌≡◌, ◌≤◌, OnOk, [], ◌∷◌};
ghost use Rattle.model.specs.Nets.{TargetFits};
ghost use Rattle.model.specs.Faults.{refusal};
ghost use Rattle.model.specs.Edits.{asked, range_rises, target_fits};

use crate::faults::Fault;

// The ends are two numbers, since records and blocks have them as fields of their own, in the order in which they are compared and written.

// Refuses a range that ends below its start.
pub fn check_range(lo: u64, hi: u64) -> Result<(), Fault>
    ensures answer { refusal result ≡ asked (range_rises lo hi ∷ []) }
    ensures passed { OnOk result (lo ≤ hi) }
{
    if lo > hi {
        return Err(Fault::RangeReversed);
    }
    Ok(())
}

// Refuses such a range too, and then one whose target, from `base` up, passes the last address.
pub fn check_target(lo: u64, hi: u64, base: u64) -> Result<(), Fault>
    ensures answer { refusal result ≡ asked (range_rises lo hi ∷ target_fits lo hi base ∷ []) }
    ensures passed { OnOk result ((lo ≤ hi) × TargetFits lo hi base) }
{
    check_range(lo, hi)?;
    let last = base.checked_add(hi - lo);
    last.map(|_| ()).ok_or(Fault::TargetPastTop)
}
