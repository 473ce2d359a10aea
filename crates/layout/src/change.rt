// The changes that grant and release make to a sound pool's bytes.
ghost use Rattle.std.specs.Prelude.{◌≡◌, ◌+◌, ◌≤◌, ◌<◌, length};
ghost use Rattle.model.specs.Blocks.{granted};
ghost use Rattle.layout.specs.Layout.{changed, Grantable, Releasable, Released, swallowed, swallow_of};

use crate::{Spot, header};
use model::HeaderPlace;

// No less than this is split off: a header and four bytes.
const LEAST_REST: usize = 12;

// Gives the free run at a place to a task: a block of `need` bytes and a free run behind it where 12 bytes or more are left over, else all of it.
pub fn grant_at(s: &mut [u8], place: HeaderPlace, need: usize, task: usize)
    requires { Grantable s.old place need }
    ensures { s.new ≡ changed (granted need task) s.old }
{
    let size = header::read_u32(s, place.0);
    let rest = size - need;
    if LEAST_REST <= rest {
        header::write_header(s, place, need, task);
        header::write_header(s, HeaderPlace(place.0 + need), rest, 0);
    } else {
        header::write_header(s, place, size, task);
    }
}

// The size of the free block that begins at a place, whose header becomes zero; 0 where a live block begins there, or the pool ends.
fn swallow(s: &mut [u8], at: usize) -> usize
    requires { at < length s.old → at + 8 ≤ length s.old }
    ensures { swallowed result s.new ≡ swallow_of at s.old }
{
    if s.len() <= at {
        return 0;
    }
    let place = HeaderPlace(at);
    let header = header::read_header(s, place);
    if header.owner != 0 {
        return 0;
    }
    header::write_header(s, place, 0, 0);
    header.size
}

// Frees the live block that was found: it joins a free block behind it, then one before it, and their headers become zero. Answers the size of
// the run.
pub fn release_at(s: &mut [u8], spot: Spot) -> usize
    requires { Releasable s.old spot }
    ensures { Released s.old spot.place.0 s.new result }
{
    let at = spot.place.0;
    let first = spot.free.0;
    let size = header::read_u32(s, at);
    let behind = swallow(s, at + size);
    let total = at - first + size + behind;
    if first < at {
        header::write_header(s, spot.place, 0, 0);
    }
    header::write_header(s, spot.free, total, 0);
    total
}
