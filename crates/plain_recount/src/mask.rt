//! A mask has a bit for each resource of a cell.
ghost use Rattle.std.specs.Prelude.{◌≡◌, ◌<◌};
ghost use Rattle.cell_base.specs.declared.limits.TheConstants.{MAX_RESOURCES};
ghost use Rattle.cell_base.specs.Masks.{has_bit};

use cell_base::ResId;

/// Whether a mask has the bit of a resource.
pub fn has_bit(mask: u64, r: ResId) -> bool
    requires { r.0 < MAX_RESOURCES }
    ensures { result ≡ has_bit mask r.0 }
{
    mask >> r.0 & 1 == 1
}
