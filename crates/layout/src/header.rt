// Headers: the size and the owner of a block, four bytes each, lowest first; and offsets of blocks.
ghost use Rattle.std.specs.Prelude.{◌≡◌, ◌+◌, ◌≤◌, ◌<◌, length};
ghost use Rattle.model.specs.Blocks.{block};
ghost use Rattle.model.specs.Limits.{longest_pool};
ghost use Rattle.model.specs.Bytes.{le32, header};
ghost use Rattle.model.specs.Calls.{offset_of};
ghost use Rattle.layout.specs.Layout.{Read, ReadHeader, put};

use model::{BlockOffset, HeaderPlace};

// The two numbers of a header: the size of a block, header included, and its owner, 0 where the block is free.
#[derive(Clone, Copy, Debug, PartialEq, Eq)]
pub struct Header {
    pub size: usize,
    pub owner: usize,
}

// The offset of the block whose header is at a place: no From, since there is one only in a pool.
pub fn offset_of(place: HeaderPlace) -> BlockOffset
    requires { place.0 ≤ longest_pool }
    ensures { result ≡ offset_of place }
{
    BlockOffset(place.0 + 8)
}

pub fn read_u32(s: &[u8], at: usize) -> usize
    requires { at + 4 ≤ length s.now }
    ensures { Read s.now at result }
{
    u32::from_le_bytes([s[at], s[at + 1], s[at + 2], s[at + 3]]) as usize
}

// The header at a place.
pub fn read_header(s: &[u8], place: HeaderPlace) -> Header
    requires { place.0 + 8 ≤ length s.now }
    ensures { ReadHeader s.now place.0 result }
{
    let at = place.0;
    Header {
        size: read_u32(s, at),
        owner: read_u32(s, at + 4),
    }
}

fn write_u32(s: &mut [u8], at: usize, n: usize)
    requires { at + 4 ≤ length s.old }
    ensures { s.new ≡ put at (le32 n) s.old }
{
    let bytes = n.to_le_bytes();
    s[at..at + 4].copy_from_slice(&bytes[..4]);
}

pub fn write_header(s: &mut [u8], place: HeaderPlace, size: usize, owner: usize)
    requires { place.0 + 8 ≤ length s.old }
    ensures { s.new ≡ put place.0 (header (block size owner)) s.old }
{
    let at = place.0;
    write_u32(s, at, size);
    write_u32(s, at + 4, owner);
}
