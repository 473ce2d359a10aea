// The calls of the pool: each tests the state and its numbers, and only then changes anything. Pool and queue are handed in apart, as callers keep them.
#![tactic(auto)]

ghost use Rattle.std.specs.Prelude.{◌≡◌, true, MatchResult};
ghost use Rattle.std.proofs.Math.Option.{none, some};
ghost use Rattle.model.specs.Bytes.{blocks_of};
ghost use Rattle.model.specs.Calls as calls;
ghost use Rattle.model.specs.Errors.{refusal_of};
ghost use Rattle.model.specs.Pool.{stored, result_of, created, called, inquired};
ghost use Rattle.layout.specs.declared.Target.TheVariants as target;
ghost use Rattle.request.specs.Request.{request};
ghost use Rattle.pool.specs.Steps.{verdict_in, time_of, Requested, Freeable, Cancellable};

use layout::{Spot, Target, change, header};
use model::{
    Answer, Attributes, BlockOffset, CallError, DEFAULTS, E_RLWAI, Entry, HeaderPlace, Misplaced,
    Queue, Totals, Woken,
};
use queue::{Limit, Ticked};

mod reason;

// One free run of all bytes, and an empty queue that keeps the attributes.
pub fn create(pool: &mut [u8], attributes: Attributes) -> Answer
    ensures { result_of result pool.new ≡ created attributes pool.old }
{
    let n = pool.len();
    if !state::is_valid(attributes, n) {
        return state::deny(CallError::Parameter, state::empty(DEFAULTS));
    }
    header::write_header(pool, HeaderPlace(0), n, 0);
    // with the code of what is done, an answer is what a refusal is: nobody woken, no offset
    state::refuse(0, state::empty(attributes))
}

// The tests of a get but for the last, which refuses a poll: the run that was found for it, and how long it may wait. Its numbers go as the call has them.
fn check_get(
    pool: &[u8],
    queue: &Queue,
    task: u32,
    size: u32,
    limit: i32,
    priority: u32,
) -> Result<(Option<Spot>, Limit), CallError>
    ensures { MatchResult result
        (λ r. Requested pool.now queue.now (request task size limit priority) r.0 r.1)
        (λ e. verdict_in (calls.get (request task size limit priority)) pool.now queue.now ≡ some (refusal_of e)) }
{
    let need = sizes::need(queue.attributes, size);
    let seen = state::inspect(pool, *queue, Target::Run(need))?;
    let wait = request::judge(*queue, pool.len(), task, size, limit, priority)?;
    Ok((seen.found, wait))
}

// The time left of an entry; a poll has none, and stays out of the queue.
fn time_of(wait: Limit) -> u32
    ensures { result ≡ time_of wait }
{
    match wait {
        Limit::Poll => 0,
        Limit::Left(left) => left,
    }
}

// A block for a task: granted where a run fits and nobody waits, by priority nobody of better or equal priority; else the task waits, through `limit`
// ticks, forever (-1) or not at all (0). Priorities are 1, the best, to LOWEST_PRIORITY.
pub fn get(pool: &mut [u8], queue: Queue, task: u32, size: u32, limit: i32, priority: u32) -> Answer
    ensures { result_of result pool.new ≡ called (calls.get (request task size limit priority)) pool.old queue }
{
    let (found, wait) = match check_get(pool, &queue, task, size, limit, priority) {
        Ok(passed) => passed,
        Err(error) => return state::deny(error, queue),
    };
    let e = Entry {
        task: task as u16,
        priority: priority as u16,
        size,
        left: time_of(wait),
    };
    // the limit itself tells a poll: of `wait == Limit::Poll` the proof learns nothing
    request::admit(pool, queue, e, limit == 0, found)
}

// A block for a task, or a refusal at once.
pub fn poll(pool: &mut [u8], queue: Queue, task: u32, size: u32, priority: u32) -> Answer
    ensures { result_of result pool.new ≡ called (calls.poll task size priority) pool.old queue }
{
    get(pool, queue, task, size, 0, priority)
}

// The tests of a release: the live block at the offset, and the greatest free run.
fn check_release(
    pool: &[u8],
    queue: &Queue,
    offset: BlockOffset,
) -> Result<(Spot, usize), CallError>
    ensures { MatchResult result
        (λ r. Freeable pool.now queue.now offset r.0 r.1)
        (λ e. verdict_in (calls.release offset) pool.now queue.now ≡ some (refusal_of e)) }
{
    let seen = state::inspect(pool, *queue, Target::Holder(offset))?;
    let spot = seen.found.ok_or(Misplaced::OutOfRange)?;
    reason::check_offset(pool, offset, spot)?;
    Ok((spot, seen.greatest))
}

// The block at an offset becomes free, and the queue is served. A refusal says why the offset is not that of a live block.
pub fn release(pool: &mut [u8], queue: Queue, offset: BlockOffset) -> Answer
    ensures { result_of result pool.new ≡ called (calls.release offset) pool.old queue }
{
    let (spot, greatest) = match check_release(pool, &queue, offset) {
        Ok(passed) => passed,
        Err(error) => return state::deny(error, queue),
    };
    let run = change::release_at(pool, spot);
    let most = run.max(greatest + 8);
    let woken = queue::nobody();
    serving::serve(pool, queue.attributes, queue.entries, woken, 0, most)
}

// The tests of a cancel: the place of the task's entry, and the greatest free run.
fn check_cancel(pool: &[u8], queue: &Queue, task: u32) -> Result<(usize, usize), CallError>
    ensures { MatchResult result
        (λ r. Cancellable pool.now queue.now task r.0 r.1)
        (λ e. verdict_in (calls.cancel task) pool.now queue.now ≡ some (refusal_of e)) }
{
    let seen = state::inspect(pool, *queue, Target::Nothing)?;
    if !queue::is_task(task) {
        return Err(CallError::UnknownTask);
    }
    let place = queue::find(queue.entries, task).ok_or(CallError::NotWaiting)?;
    Ok((place, seen.greatest))
}

// A waiting task leaves the queue, and the queue is served.
pub fn cancel(pool: &mut [u8], queue: Queue, task: u32) -> Answer
    ensures { result_of result pool.new ≡ called (calls.cancel task) pool.old queue }
{
    let (place, greatest) = match check_cancel(pool, &queue, task) {
        Ok(passed) => passed,
        Err(error) => return state::deny(error, queue),
    };
    let entries = queue::remove(queue.entries, place);
    let mut woken = queue::nobody();
    woken[0] = Woken {
        task,
        code: E_RLWAI,
        offset: BlockOffset(0),
    };
    serving::serve(pool, queue.attributes, entries, woken, 1, greatest + 8)
}

// Every limited wait loses a tick, those that reach none leave, and the queue is served; where nobody leaves, its head fits no more than before.
pub fn tick(pool: &mut [u8], queue: Queue) -> Answer
    ensures { result_of result pool.new ≡ called calls.tick pool.old queue }
{
    let seen = match state::inspect(pool, queue, Target::Nothing) {
        Ok(seen) => seen,
        Err(error) => return state::deny(error, queue),
    };
    let Ticked {
        entries,
        woken,
        count,
    } = queue::tick(queue.entries);
    let nobody_left = count == 0;
    if nobody_left {
        let attributes = queue.attributes;
        let queue = Queue {
            attributes,
            entries,
        };
        return state::answer(0, BlockOffset(0), woken, queue);
    }
    let most = seen.greatest + 8;
    serving::serve(pool, queue.attributes, entries, woken, count, most)
}

// The sum of the free runs and the greatest, each less its header, and the head's task.
pub fn inquire(pool: &[u8], queue: Queue) -> Totals
    ensures { result ≡ inquired pool.now queue }
{
    match state::inspect(pool, queue, Target::Nothing) {
        Ok(seen) => Totals {
            code: 0,
            sum: seen.sum,
            greatest: seen.greatest,
            head: u32::from(queue.entries[0].task),
        },
        Err(error) => Totals {
            code: error.code(),
            sum: 0,
            greatest: 0,
            head: 0,
        },
    }
}
