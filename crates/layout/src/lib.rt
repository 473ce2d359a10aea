// The pool's bytes: headers, the walk over them, and the changes that grant and release make.
#![tactic(auto)]

use model::{BlockOffset, HeaderPlace};

pub mod change;
pub mod header;
pub mod walk;

// What a walk is to find: the first free run of at least so many bytes, the block that holds an offset, or nothing. Nothing is a search like the others:
// an Option around these would be taken apart wherever a target is.
#[derive(Clone, Copy, Debug, PartialEq, Eq)]
pub enum Target {
    Run(usize),
    Holder(BlockOffset),
    Nothing,
}

// A block that was found: the place of its header, and where the free bytes that end there begin (its own place if the block before it is live).
#[derive(Clone, Copy, Debug, PartialEq, Eq)]
pub struct Spot {
    pub place: HeaderPlace,
    pub free: HeaderPlace,
}

// What a walk saw before the place `at`: where the free bytes that end there begin, and the greatest and the sum of the free runs, each less its
// header. All zeros: nothing yet.
#[derive(Clone, Copy, Debug, Default, PartialEq, Eq)]
pub struct Seen {
    pub at: usize,
    pub free: usize,
    pub greatest: usize,
    pub sum: usize,
}

// Where a walk ended: before the block sought, or at the pool's end.
#[derive(Clone, Copy, Debug, PartialEq, Eq)]
pub enum Stop {
    Here(Seen),
    End(Seen),
}

// What a sound pool is found to be: the block sought, and the greatest and the sum of the free runs, each less its header.
#[derive(Clone, Copy, Debug, PartialEq, Eq)]
pub struct Survey {
    pub found: Option<Spot>,
    pub greatest: usize,
    pub sum: usize,
}
