// The walk over headers from 0: it tests, measures and finds, and goes over each header once.
ghost use Rattle.std.specs.Prelude.{◌≡◌, true, ◌+◌, ◌≤◌, ◌<◌, length};
ghost use Rattle.model.specs.Limits.{most_tasks, longest_pool};
ghost use Rattle.model.specs.Blocks.{block, ok_block};
ghost use Rattle.model.specs.Bytes.{blocks_of};
ghost use Rattle.layout.specs.Layout.{may_stand, wanted, pass, walk_at, need_of, byte_of, spot_of, survey_of, sound_pool, first_fit_of};

use crate::header::{self, Header};
use crate::{Seen, Spot, Stop, Survey, Target};
use model::{HeaderPlace, LONGEST_POOL, TASKS};

impl Header {
    // Whether it may stand in a pool. Whether the block ends within the pool shows when the walk ends.
    fn is_block(self) -> bool
        ensures { result ≡ ok_block most_tasks (block self.size self.owner) }
    {
        self.size % 4 == 0 && 12 <= self.size && self.owner <= TASKS
    }

    // Whether it may stand behind what was seen: no free block follows a free one. The owner is tested first, so that the compiled walk branches
    // on it once.
    fn may_stand(self, seen: Seen) -> bool
        ensures { result ≡ may_stand seen (block self.size self.owner) }
    {
        if self.owner == 0 && seen.free < seen.at {
            return false;
        }
        self.is_block()
    }

    // Whether its block at a place is one sought: a free block of at least `need` bytes, or one that ends past `byte`.
    fn is_wanted(self, need: usize, byte: usize, at: usize) -> bool
        requires { at + self.size < 18446744073709551616 }
        ensures { result ≡ wanted need byte at (block self.size self.owner) }
    {
        let end = at + self.size;
        (self.owner == 0 && need <= self.size) || byte < end
    }
}

impl Seen {
    // What is seen once a block is passed.
    fn passed(self, header: Header) -> Seen
        requires { (8 ≤ header.size) × (self.sum ≤ self.at) × (self.at + header.size < 18446744073709551616) }
        ensures { result ≡ pass (block header.size header.owner) self }
    {
        let at = self.at;
        let next = at + header.size;
        if header.owner != 0 {
            return Seen {
                at: next,
                free: next,
                ..self
            };
        }
        let room = header.size - 8;
        Seen {
            at: next,
            free: at,
            greatest: self.greatest.max(room),
            sum: self.sum + room,
        }
    }
}

// Tests and measures block by block from what was seen on; stops before a free block of `need` bytes or the block that holds `byte`. None where the
// bytes are no sound pool.
fn walk_from(s: &[u8], need: usize, byte: usize, mut seen: Seen) -> Option<Stop>
    requires { (12 ≤ length s.now) × (length s.now ≤ longest_pool) × (seen.sum ≤ seen.at) }
    ensures { result ≡ walk_at need byte s.now seen }
{
    let n = s.len();
    let last = n - 12;
    // from header to header: each block says where the next begins
    loop {
        if last < seen.at {
            break (seen.at == n).then_some(Stop::End(seen));
        }
        let header = header::read_header(s, HeaderPlace(seen.at));
        if !header.may_stand(seen) {
            break None;
        }
        if header.is_wanted(need, byte, seen.at) {
            break Some(Stop::Here(seen));
        }
        seen = seen.passed(header);
    }
}

// No block of a pool has this size, and none ends past that byte: the loop tests two numbers and no target.
const NO_NEED: usize = LONGEST_POOL + 1;

const NO_BYTE: usize = LONGEST_POOL;

fn need_of(target: Target) -> usize
    ensures { result ≡ need_of target }
{
    match target {
        Target::Run(need) => need,
        Target::Holder(_) | Target::Nothing => NO_NEED,
    }
}

fn byte_of(target: Target) -> usize
    ensures { result ≡ byte_of target }
{
    match target {
        Target::Holder(offset) => offset.0,
        Target::Run(_) | Target::Nothing => NO_BYTE,
    }
}

fn spot_of(seen: Seen) -> Spot
    ensures { result ≡ spot_of seen }
{
    Spot {
        place: HeaderPlace(seen.at),
        free: HeaderPlace(seen.free),
    }
}

// Tests the whole pool, measures it and finds one block, in one pass. None where the bytes are no sound pool.
pub fn survey(s: &[u8], target: Target) -> Option<Survey>
    ensures { result ≡ survey_of target s.now }
{
    let n = s.len();
    if n % 4 != 0 || n < 12 || LONGEST_POOL < n {
        return None;
    }
    match walk_from(s, need_of(target), byte_of(target), Seen::default())? {
        Stop::End(seen) => Some(Survey {
            found: None,
            greatest: seen.greatest,
            sum: seen.sum,
        }),
        Stop::Here(here) => {
            let Stop::End(seen) = walk_from(s, NO_NEED, NO_BYTE, here)? else {
                return None;
            };
            Some(Survey {
                found: Some(spot_of(here)),
                greatest: seen.greatest,
                sum: seen.sum,
            })
        }
    }
}

// The first free run of at least `need` bytes of a sound pool.
pub fn first_fit(s: &[u8], need: usize) -> Option<Spot>
    requires { sound_pool s.now ≡ true }
    ensures { result ≡ first_fit_of need (blocks_of s.now) }
{
    let Stop::Here(here) = walk_from(s, need, NO_BYTE, Seen::default())? else {
        return None;
    };
    Some(spot_of(here))
}
