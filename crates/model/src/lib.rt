// The values that the calls of the pool take and answer.
#![tactic(auto)]

mod errors;

pub use errors::{CallError, Misplaced};

// Tasks are numbered 1 to TASKS; the queue and the list of woken tasks have as many places.
pub const TASKS: usize = 32;

// The greatest length of a pool, in bytes.
pub const LONGEST_POOL: usize = 65536;

// Priorities are numbered 1, the best, to this.
pub const LOWEST_PRIORITY: u32 = 16;

// The code of a get that was told to wait.
pub const WAITING: i32 = 1;

// The codes of the µITRON 4.0 specification.
pub const E_SYS: i32 = -5;

pub const E_PAR: i32 = -17;

pub const E_ID: i32 = -18;

pub const E_CTX: i32 = -25;

pub const E_NOMEM: i32 = -33;

pub const E_OBJ: i32 = -41;

pub const E_RLWAI: i32 = -49;

pub const E_TMOUT: i32 = -50;

// Why the release of an offset is refused: it is below 8 or at or past the pool's end, no multiple of 4, that of a free block, or any other spot.
pub const OUT_OF_RANGE: u32 = 1;

pub const MISALIGNED: u32 = 2;

pub const ALREADY_FREE: u32 = 3;

pub const INSIDE_BLOCK: u32 = 4;

// The offset of a block, as handed to tasks: the place of its header plus 8.
#[derive(Clone, Copy, Debug, Default, PartialEq, Eq)]
pub struct BlockOffset(pub usize);

// The place of a header in the pool.
#[derive(Clone, Copy, Debug, Default, PartialEq, Eq)]
pub struct HeaderPlace(pub usize);

// A waiting request: the task, the priority, 1 best, the size as asked, and the ticks left (FOREVER: no limit). All zeros: an unused place, and no None,
// since a call takes any entries and tests these zeros.
#[derive(Clone, Copy, Debug, Default, PartialEq, Eq)]
pub struct Entry {
    pub task: u16,
    pub priority: u16,
    pub size: u32,
    pub left: u32,
}

// The ticks left of a wait without a limit, a number like the others in an entry (`ok_left`), and the most of a limited one: one more than the greatest
// limit.
pub const FOREVER: u32 = 4294967295;

pub const LONGEST_LEFT: u32 = 2147483648;

// The choices of how a size asked is rounded: up to a multiple of 4, or to the size kinds of the pool.
pub const WITHOUT_KINDS: u16 = 0;

pub const WITH_KINDS: u16 = 1;

// The choices of whom to serve first: who asked first, or the best priority and among equals who asked first.
pub const FIFO_ORDER: u16 = 0;

pub const PRIORITY_ORDER: u16 = 1;

// What create is told of a pool, and the queue keeps: the choices of rounding and of order, and the greatest request of a pool with kinds (0 without).
// The choices are numbers, since any may be handed in: an unknown one is refused.
#[derive(Clone, Copy, Debug, Default, PartialEq, Eq)]
pub struct Attributes {
    pub kinds: u16,
    pub order: u16,
    pub greatest: u32,
}

// Without kinds and by arrival: all zeros.
pub const DEFAULTS: Attributes = Attributes {
    kinds: WITHOUT_KINDS,
    order: FIFO_ORDER,
    greatest: 0,
};

// The waiting queue: what was chosen for the pool, and the entries in order, zeros in the places past the last.
#[derive(Clone, Copy)]
pub struct Queue {
    pub attributes: Attributes,
    pub entries: [Entry; TASKS],
}

// A task whose wait ended: with code 0 and the offset of its block, or with another code and offset 0. All zeros: an unused place. The code is a number,
// as in an Answer.
#[derive(Clone, Copy, Debug, Default, PartialEq, Eq)]
pub struct Woken {
    pub task: u32,
    pub code: i32,
    pub offset: BlockOffset,
}

// What a call answers, with the queue that it leaves. Reason and place are those of a refused release, and 0 in every other answer; the place is
// the header of the block that holds the offset, and 0 where the offset is out of range or no multiple of 4. Code and reason are the numbers that
// `called` and the table of refusals tell; within the calls a refusal is a CallError.
#[derive(Clone, Copy)]
pub struct Answer {
    pub code: i32,
    pub offset: BlockOffset,
    pub reason: u32,
    pub place: HeaderPlace,
    pub woken: [Woken; TASKS],
    pub queue: Queue,
}

// What inquire answers: the sum and the greatest of the free runs, each less its header, and the head's task or 0. The code is a number, as in an Answer.
#[derive(Clone, Copy)]
pub struct Totals {
    pub code: i32,
    pub sum: usize,
    pub greatest: usize,
    pub head: u32,
}
