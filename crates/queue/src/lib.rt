// The waiting queue of a pool, by value: its entries in order, zeros in the places past the last.
#![tactic(auto)]

ghost use Rattle.std.specs.List.{position};
ghost use Rattle.std.specs.Prelude.{◌≡◌, ◌&&◌, ◌||◌, eqb, ltb, true, [], ◌++◌, ℕ, ◌+◌, ◌-◌, ◌≤◌, ◌<◌, length, take, drop};
ghost use Rattle.model.specs.declared.Attributes.{Attributes};
ghost use Rattle.model.specs.Limits.{most_tasks, lowest_priority};
ghost use Rattle.model.specs.Waiting.{ok_left, aged, insert};
ghost use Rattle.model.specs.Rules.{ok_task, ok_order, ok_priority, rank_by, most_asked, ok_size, ok_entry, rules};
ghost use Rattle.model.specs.Places.{no_entry, pad, used, is_unused, tidy, woken_of};
ghost use Rattle.queue.specs.Entries.{sound_queue, found, without, ticked_of, limit_of};

use model::{
    Attributes, BlockOffset, E_TMOUT, Entry, FIFO_ORDER, FOREVER, LONGEST_LEFT, LOWEST_PRIORITY,
    PRIORITY_ORDER, TASKS, Woken,
};

// The greatest task number.
const LAST_TASK: u32 = TASKS as u32;

// ---- empty places: all zeros

// A queue without entries.
pub fn empty() -> [Entry; TASKS]
    ensures { result ≡ pad no_entry most_tasks [] }
{
    [Entry::default(); TASKS]
}

// A woken list without tasks.
pub fn nobody() -> [Woken; TASKS]
    ensures { result ≡ woken_of [] }
{
    [Woken::default(); TASKS]
}

// ---- the tests

// Whether this is the number of a task.
#[tactic(auto, unfolding(model::specs::Rules::rules))]
pub fn is_task(task: u32) -> bool
    ensures { (a : Attributes) (n : ℕ) → result ≡ ok_task (rules a n) task }
{
    (1..=LAST_TASK).contains(&task)
}

// Whether this priority may be asked.
pub fn is_priority(priority: u32) -> bool
    ensures { result ≡ ok_priority priority }
{
    (1..=LOWEST_PRIORITY).contains(&priority)
}

// Whether this is the number of an order.
pub fn is_order(order: u16) -> bool
    ensures { result ≡ ok_order order }
{
    order == FIFO_ORDER || order == PRIORITY_ORDER
}

// Whether this time left may stand in an entry.
fn is_left(left: u32) -> bool
    ensures { result ≡ ok_left left }
{
    (1..=LONGEST_LEFT).contains(&left) || left == FOREVER
}

// Whether this entry asks what may be asked where the greatest request is `most`.
fn is_allowed(most: usize, e: Entry) -> bool
    ensures { result ≡ ok_size most e.size && ok_priority e.priority }
{
    sizes::is_size(most, e.size) && is_priority(u32::from(e.priority))
}

// Whether this entry may stand in the queue of a pool whose greatest request is `most`.
#[tactic(auto, unfolding(model::specs::Rules::rules))]
fn is_entry(most: usize, e: Entry) -> bool
    ensures { (a : Attributes) (n : ℕ) → most ≡ most_asked a n → result ≡ ok_entry (rules a n) e }
{
    is_task(u32::from(e.task)) && is_allowed(most, e) && is_left(e.left)
}

// Whether this place is all zeros.
fn is_unused(e: Entry) -> bool
    ensures { result ≡ is_unused e }
{
    e == Entry::default()
}

// The rank of an entry by the number of the order, as the queue keeps it: who has the lower one is served first.
pub fn rank(order: u16, e: Entry) -> u32
    ensures { result ≡ rank_by order e }
{
    if order == PRIORITY_ORDER {
        u32::from(e.priority)
    } else {
        0
    }
}

// A place for each task's number, and for 0.
const NUMBERS: usize = TASKS + 1;

// Whether the entries are sound in a pool of `n` bytes with these attributes. `seen` marks the tasks of the entries passed, and `last` is the rank of the
// last of them; once these have ended, only unused places follow.
pub fn is_sound(attributes: Attributes, entries: [Entry; TASKS], n: usize) -> bool
    ensures { result ≡ sound_queue attributes n entries }
{
    let most = sizes::most_asked(attributes, n);
    let order = attributes.order;
    let mut seen = [false; NUMBERS];
    let mut last: u32 = 0;
    let mut ended = false;
    for &e in &entries {
        ended |= e.task == 0;
        if ended {
            if !is_unused(e) {
                return false;
            }
            continue;
        }
        if !is_entry(most, e) {
            return false;
        }
        let task = usize::from(e.task);
        let own = rank(order, e);
        if seen[task] || own < last {
            return false;
        }
        seen[task] = true;
        last = own;
    }
    true
}

// ---- who waits

// The place of the task's entry.
pub fn find(entries: [Entry; TASKS], task: u32) -> Option<usize>
    ensures { result ≡ found task (used entries) }
{
    entries
        .iter()
        .take_while(|e| e.task != 0)
        .position(|e| u32::from(e.task) == task)
}

// ---- who joins and who leaves: any entries may be handed in, so it is asked of them, and no type says it, that they are tidy

// The first place that is unused or of a rank above `own`. Unrolled in `join`, the search would have the queue copied field by field.
#[inline(never)]
fn place_for(order: u16, entries: &[Entry; TASKS], own: u32) -> Option<usize>
    ensures { result ≡ position (λ x. eqb x.task 0 || ltb own (rank_by order x)) entries.now }
{
    entries
        .iter()
        .position(|x| x.task == 0 || own < rank(order, *x))
}

// The last place.
const LAST_PLACE: usize = TASKS - 1;

// The queue with a newcomer, behind those of lower or equal rank: it takes the first place that is unused or of a higher rank, and who stood from there on
// moves down by one.
// Inlined into a call it would have the queue copied field by field.
#[inline(never)]
pub fn join(order: u16, entries: [Entry; TASKS], e: Entry) -> [Entry; TASKS]
    requires { (tidy entries ≡ true) × (e.priority ≤ lowest_priority) }
    ensures { result ≡ pad no_entry most_tasks (insert (rank_by order) e (used entries)) }
{
    let mut out = entries;
    if let Some(place) = place_for(order, &out, rank(order, e)) {
        out.copy_within(place..LAST_PLACE, place + 1);
        out[place] = e;
    }
    out
}

// The queue without `count` places from `place` on, those behind them so many places further up, then zeros.
fn cut(entries: [Entry; TASKS], place: usize, count: usize) -> [Entry; TASKS]
    requires { (tidy entries ≡ true) × (place + count ≤ most_tasks) }
    ensures { result ≡ pad no_entry most_tasks (take place entries ++ drop (place + count) (used entries)) }
{
    let mut out = entries;
    out.copy_within(place + count.., place);
    out[TASKS - count..].fill(Entry::default());
    out
}

// The queue without the entry at a place.
pub fn remove(entries: [Entry; TASKS], place: usize) -> [Entry; TASKS]
    requires { (tidy entries ≡ true) × (place < length (used entries)) }
    ensures { result ≡ pad no_entry most_tasks (without place (used entries)) }
{
    cut(entries, place, 1)
}

// The queue of the entries from a place on.
pub fn rest(entries: [Entry; TASKS], first: usize) -> [Entry; TASKS]
    requires { (tidy entries ≡ true) × (first ≤ most_tasks) }
    ensures { result ≡ pad no_entry most_tasks (drop first (used entries)) }
{
    cut(entries, 0, first)
}

// ---- time

// The entry a tick older.
fn age(e: Entry) -> Entry
    ensures { result ≡ aged e }
{
    if e.left == FOREVER {
        return e;
    }
    Entry {
        left: e.left.saturating_sub(1),
        ..e
    }
}

// The queue after a tick, and the tasks whose wait the tick ends, with their number: the list has a place for each task, as an Answer has it.
#[derive(Clone, Copy)]
pub struct Ticked {
    pub entries: [Entry; TASKS],
    pub woken: [Woken; TASKS],
    pub count: usize,
}

// The time left of a wait whose last tick comes.
const LAST_LEFT: u32 = 1;

// A tick: each limited wait loses one, and those that reach none leave. Two lists are filled, each with an end of its own.
pub fn tick(entries: [Entry; TASKS]) -> Ticked
    ensures { result ≡ ticked_of entries }
{
    let mut stay = empty();
    let mut woken = nobody();
    let mut staying = 0;
    let mut count = 0;
    for &e in &entries {
        if e.task == 0 {
            break;
        }
        if e.left == LAST_LEFT {
            woken[count] = Woken {
                task: u32::from(e.task),
                code: E_TMOUT,
                offset: BlockOffset(0),
            };
            count += 1;
        } else {
            stay[staying] = age(e);
            staying += 1;
        }
    }
    Ticked {
        entries: stay,
        woken,
        count,
    }
}

// How long a request may wait: not at all, or for a time left.
#[derive(Clone, Copy, Debug, PartialEq, Eq)]
pub enum Limit {
    Poll,
    Left(u32),
}

// -1 waits forever, 0 polls, a positive limit ends in the tick after so many, any other is refused.
pub fn wait_of(limit: i32) -> Option<Limit>
    ensures { result ≡ limit_of limit }
{
    match limit {
        -1 => Some(Limit::Left(FOREVER)),
        0 => Some(Limit::Poll),
        1.. => Some(Limit::Left(limit as u32 + 1)),
        _ => None,
    }
}
