ghost use Rattle.std.specs.Prelude.{◌≡◌, ◌++◌, ◌∷◌, [], OnOk};

use crate::mask_nets::MaskNets;
use std::alloc::AllocError;

// Adds the nets of a chain at the end of a list.
pub(crate) fn push_masks(masks: &mut Vec<MaskNets>, nets: MaskNets) -> Result<(), AllocError>
    ensures { OnOk result (masks.new.items ≡ masks.old.items ++ nets ∷ []) }
{
    masks.push(nets)?;
    Ok(())
}
