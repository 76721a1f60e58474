ghost use Rattle.std.specs.Prelude.{◌≡◌, ◌≤◌, [], ◌∷◌, OnOk};
ghost use Rattle.model.specs.Faults.{refusal};
ghost use Rattle.model.specs.Edits.{asked, node_known, destination_known};

use model::faults::Fault;

// Refuses what is none of the 32 nodes.
pub fn check_node(node: u8) -> Result<(), Fault>
    ensures answer { refusal result ≡ asked (node_known node ∷ []) }
    ensures passed { OnOk result (node ≤ 31) }
{
    if node > 31 {
        return Err(Fault::NodeOutOfRange);
    }
    Ok(())
}

// Refuses a number above the highest that stands for a destination there.
pub(crate) fn check_destination(destination: u8, most: u8) -> Result<(), Fault>
    ensures answer { refusal result ≡ asked (destination_known most destination ∷ []) }
    ensures passed { OnOk result (destination ≤ most) }
{
    if destination > most {
        return Err(Fault::DestinationOutOfRange);
    }
    Ok(())
}
