// Why a release is refused.
ghost use Rattle.std.specs.Prelude.{◌≡◌, true};
ghost use Rattle.model.specs.Bytes.{blocks_of};
ghost use Rattle.layout.specs.declared.Target.TheVariants as target;
ghost use Rattle.layout.specs.Layout.{sound_pool, seek, sought};
ghost use Rattle.pool.specs.Steps.{misplaced_in, told_by};

use layout::{Spot, header};
use model::{BlockOffset, Misplaced};

// Whether an offset is that of a live block, given the block that holds it: the first test that fails says why not.
pub fn check_offset(pool: &[u8], offset: BlockOffset, spot: Spot) -> Result<(), Misplaced>
    requires { (sound_pool pool.now ≡ true) × (seek (sought (target.Holder offset)) 0 0 (blocks_of pool.now) ≡ Some spot) }
    ensures { told_by result ≡ misplaced_in offset pool.now }
{
    let is_low = offset.0 < 8;
    if is_low {
        return Err(Misplaced::OutOfRange);
    }
    let is_uneven = offset.0 % 4 != 0;
    if is_uneven {
        return Err(Misplaced::Misaligned);
    }
    let place = spot.place;
    if offset != header::offset_of(place) {
        return Err(Misplaced::InsideBlock(place));
    }
    if header::read_header(pool, place).owner == 0 {
        return Err(Misplaced::AlreadyFree(place));
    }
    Ok(())
}
