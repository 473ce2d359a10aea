// The sizes that may be asked of a pool, and the size of the block for each.
#![tactic(auto)]

ghost use Rattle.std.specs.Prelude.{◌≡◌, ◌+◌, ◌≤◌};
ghost use Rattle.model.specs.Sizes as sizes;
ghost use Rattle.model.specs.Sizes.{last_place, smallest, kind_for, ok_greatest};
ghost use Rattle.sizes.specs.Search.{skipped};
ghost use Rattle.model.specs.Rules.{ok_kinds, most_asked, ok_size, need_of};

use model::{Attributes, WITH_KINDS, WITHOUT_KINDS};

// The size kinds of source 000: number i, counted from 1, is 24 times 2^(i-1), less 12.
const KINDS: [u32; 24] = [
    12, 36, 84, 180, 372, 756, 1524, 3060, 6132, 12276, 24564, 49140, 98292, 196596, 393204,
    786420, 1572852, 3145716, 6291444, 12582900, 25165812, 50331636, 100663284, 201326580,
];

// The place of the last of them, and how many below its top kind a pool uses.
const LAST_PLACE: usize = 23;

const KINDS_BELOW: usize = 11;

// The kind at a place.
fn kind(place: usize) -> u32
    requires { place ≤ last_place }
    ensures { result ≡ sizes.kind place }
{
    KINDS[place]
}

// The place behind `width` kinds from `at` on, where all of these are below `size`, else `at`.
fn skip(at: usize, width: usize, size: u32) -> usize
    requires { (1 ≤ width) × (at + width ≤ last_place) }
    ensures { result ≡ skipped size at width }
{
    if kind(at + width - 1) < size {
        return at + width;
    }
    at
}

// The place of the smallest kind that is at least `size`, or the last: found by halving, in five comparisons.
fn place_for(size: u32) -> usize
    ensures { result ≡ smallest size 0 last_place }
{
    let a = skip(0, 12, size);
    let b = skip(a, 6, size);
    let c = skip(b, 3, size);
    let d = skip(c, 1, size);
    skip(d, 1, size)
}

// The smallest kind that is at least `size`, of those in use where the greatest request is `greatest`.
fn kind_for(greatest: u32, size: u32) -> u32
    ensures { result ≡ kind_for greatest size }
{
    let top = place_for(greatest);
    let place = place_for(size).min(top);
    // no lower than KINDS_BELOW places below the top
    kind((place + KINDS_BELOW).max(top) - KINDS_BELOW)
}

// Whether a pool of `n` bytes with kinds may have this greatest request.
fn is_greatest(greatest: u32, n: usize) -> bool
    ensures { result ≡ ok_greatest greatest n }
{
    let top = kind(place_for(greatest));
    1 <= greatest && greatest <= kind(LAST_PLACE) && top as usize + 8 <= n
}

// Whether create takes this choice of rounding and this greatest request for a pool of `n` bytes.
pub fn is_valid(attributes: Attributes, n: usize) -> bool
    ensures { result ≡ ok_kinds attributes n }
{
    match attributes.kinds {
        WITHOUT_KINDS => attributes.greatest == 0,
        WITH_KINDS => is_greatest(attributes.greatest, n),
        _ => false,
    }
}

// The greatest size that may be asked of a pool of `n` bytes.
pub fn most_asked(attributes: Attributes, n: usize) -> usize
    ensures { result ≡ most_asked attributes n }
{
    if attributes.kinds == WITHOUT_KINDS {
        n.saturating_sub(8)
    } else {
        attributes.greatest as usize
    }
}

// Whether this size may be asked of a pool whose greatest request is `most`.
pub fn is_size(most: usize, size: u32) -> bool
    ensures { result ≡ ok_size most size }
{
    1 <= size && size as usize <= most
}

// The size of the block for a size asked: rounded, with 8 bytes for the header.
pub fn need(attributes: Attributes, size: u32) -> usize
    ensures { result ≡ need_of attributes size }
{
    let rounded = if attributes.kinds == WITHOUT_KINDS {
        (size as usize).next_multiple_of(4)
    } else {
        kind_for(attributes.greatest, size) as usize
    };
    rounded + 8
}
