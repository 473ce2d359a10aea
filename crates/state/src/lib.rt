// The state of a pool: its test, and a refusal that leaves it as it is.
#![tactic(auto)]

ghost use Rattle.std.specs.Prelude.{◌≡◌, []};
ghost use Rattle.model.specs.Rules.{ok_attributes, rules};
ghost use Rattle.model.specs.Calls.{no_place, plain};
ghost use Rattle.model.specs.Errors.{refusal_of};
ghost use Rattle.model.specs.Places.{queue_of};
ghost use Rattle.state.specs.State.{inspected, refusal};

use layout::{Survey, Target, walk};
use model::{
    Answer, Attributes, BlockOffset, CallError, HeaderPlace, LONGEST_POOL, Queue, TASKS, Woken,
};

// Whether create takes these attributes for a pool of `n` bytes, a number that the attributes don't have.
fn are_valid(attributes: Attributes, n: usize) -> bool
    ensures { result ≡ ok_attributes attributes n }
{
    queue::is_order(attributes.order) && sizes::is_valid(attributes, n)
}

// Whether create takes a pool of `n` bytes with these attributes.
#[tactic(auto, unfolding(model::specs::Rules::rules))]
pub fn is_valid(attributes: Attributes, n: usize) -> bool
    ensures { result ≡ (rules attributes n).valid }
{
    n % 4 == 0 && (12..=LONGEST_POOL).contains(&n) && are_valid(attributes, n)
}

// A queue without entries.
pub fn empty(attributes: Attributes) -> Queue
    ensures { result ≡ queue_of attributes [] }
{
    Queue {
        attributes,
        entries: queue::empty(),
    }
}

// An answer that gives no reason.
pub fn answer(code: i32, offset: BlockOffset, woken: [Woken; TASKS], queue: Queue) -> Answer
    ensures { result ≡ record { code = code; offset = offset; reason = 0; place = no_place; woken = woken; queue = queue } }
{
    Answer {
        code,
        offset,
        reason: 0,
        place: HeaderPlace(0),
        woken,
        queue,
    }
}

// A code with a reason and a place, nobody woken, nothing changed. Any code, also the 0 of a create.
pub fn refuse_for(code: i32, reason: u32, place: HeaderPlace, queue: Queue) -> Answer
    ensures { result ≡ refusal (record { code = code; reason = reason; place = place }) queue }
{
    Answer {
        code,
        offset: BlockOffset(0),
        reason,
        place,
        woken: queue::nobody(),
        queue,
    }
}

// A code alone.
pub fn refuse(code: i32, queue: Queue) -> Answer
    ensures { result ≡ refusal (plain code) queue }
{
    refuse_for(code, 0, HeaderPlace(0), queue)
}

// The refusal of a call.
pub fn deny(error: CallError, queue: Queue) -> Answer
    ensures { result ≡ refusal (refusal_of error) queue }
{
    refuse_for(error.code(), error.reason(), error.place(), queue)
}

// Tests the state and surveys the pool, in one pass over its headers; the head, if any, must fit no free run.
pub fn inspect(pool: &[u8], queue: Queue, target: Target) -> Result<Survey, CallError>
    ensures { result ≡ inspected target pool.now queue }
{
    let seen = walk::survey(pool, target).ok_or(CallError::Unsound)?;
    let n = pool.len();
    let attributes = queue.attributes;
    if !are_valid(attributes, n) {
        return Err(CallError::Unsound);
    }
    let entries = queue.entries;
    if !queue::is_sound(attributes, entries, n) {
        return Err(CallError::Unsound);
    }
    let head = entries[0];
    if head.task == 0 {
        return Ok(seen);
    }
    if sizes::need(attributes, head.size) <= seen.greatest + 8 {
        return Err(CallError::Unsound);
    }
    Ok(seen)
}
