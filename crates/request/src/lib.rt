// Requests for a block: the tests, and what follows where none refuses.
#![tactic(auto)]

ghost use Rattle.std.specs.Prelude.{◌≡◌, true, ◌&&◌, ◌≤◌};
ghost use Rattle.model.specs.Limits.{lowest_priority};
ghost use Rattle.model.specs.Rules.{most_asked, ok_size, ok_priority, rules};
ghost use Rattle.model.specs.Places.{entries_of, tidy};
ghost use Rattle.model.specs.Pool.{result_of, answered, stored};
ghost use Rattle.request.specs.Request.{request, asked, judged, run_for, held, admitted, Fair};

use layout::{Spot, change, header};
use model::{Answer, Attributes, BlockOffset, CallError, Entry, Queue, TASKS, WAITING};
use queue::Limit;

// Whether a size and a priority may be asked of a pool of `n` bytes: of a call's numbers, which no entry holds yet.
fn is_allowed(attributes: Attributes, n: usize, size: u32, priority: u32) -> bool
    ensures { result ≡ ok_size (most_asked attributes n) size && ok_priority priority }
{
    sizes::is_size(sizes::most_asked(attributes, n), size) && queue::is_priority(priority)
}

// The tests of a request in a sound state of `n` bytes, in order, but for the last, which refuses a poll; else how long the request may wait.
pub fn judge(
    queue: Queue,
    n: usize,
    task: u32,
    size: u32,
    limit: i32,
    priority: u32,
) -> Result<Limit, CallError>
    ensures { result ≡ judged (asked (rules queue.attributes n) (request task size limit priority) (entries_of queue)) limit }
{
    if !queue::is_task(task) {
        return Err(CallError::UnknownTask);
    }
    if !is_allowed(queue.attributes, n, size, priority) {
        return Err(CallError::Parameter);
    }
    let wait = queue::wait_of(limit).ok_or(CallError::Parameter)?;
    if queue::find(queue.entries, task).is_some() {
        return Err(CallError::AlreadyWaiting);
    }
    Ok(wait)
}

// The run that a request may have: none while anybody of lower or equal rank waits, which is decided by the head.
fn run_for(order: u16, entries: [Entry; TASKS], e: Entry, found: Option<Spot>) -> Option<Spot>
    ensures { result ≡ run_for order entries e found }
{
    let head = entries[0];
    let is_next = head.task == 0 || queue::rank(order, e) < queue::rank(order, head);
    if is_next { found } else { None }
}

// A request that cannot be granted at once: a poll is refused, any other joins the queue.
fn hold(queue: Queue, e: Entry, poll: bool) -> Answer
    requires { (tidy queue.entries ≡ true) × (e.priority ≤ lowest_priority) }
    ensures { result ≡ held queue e poll }
{
    if poll {
        return state::deny(CallError::NotGranted, queue);
    }
    let attributes = queue.attributes;
    let entries = queue::join(attributes.order, queue.entries, e);
    let queue = Queue {
        attributes,
        entries,
    };
    state::answer(WAITING, BlockOffset(0), queue::nobody(), queue)
}

// A request that no test refused. `poll` is told beside the entry, as `admitted` takes it.
pub fn admit(pool: &mut [u8], queue: Queue, e: Entry, poll: bool, found: Option<Spot>) -> Answer
    requires { Fair pool.old queue e found }
    ensures { result_of result pool.new ≡ answered (admitted (stored pool.old queue) e poll) }
{
    let attributes = queue.attributes;
    let run = run_for(attributes.order, queue.entries, e, found);
    let Some(spot) = run else {
        return hold(queue, e, poll);
    };
    let at = spot.place;
    let need = sizes::need(attributes, e.size);
    change::grant_at(pool, at, need, usize::from(e.task));
    state::answer(0, header::offset_of(at), queue::nobody(), queue)
}
