// The steps of a log: the call of a record is made on the pool, and its text is written to an output.
#![tactic(auto)]

ghost use Rattle.std.specs.Prelude.{◌≡◌, ◌+◌, ◌≤◌};
ghost use Rattle.model.specs.Pool.{result_of, called};
ghost use Rattle.output.specs.Puts.{Room, Puts};
ghost use Rattle.transcript.specs.Lines.{longest_line};
ghost use Rattle.transcript.specs.Transcript.{call_of};
ghost use Rattle.player.specs.Steps.{last_text, longest_step, Stepped};

use call_log::{BadRecord, Record, Taken};
use model::{Answer, BlockOffset, LOWEST_PRIORITY, Queue};
use output::Output;

// The most bytes of a step's text: the line of the answer and a line for each task.
pub const LONGEST_STEP: usize = 1505;

// Makes the call of a record, and writes the line of its answer and one for each woken task: the places before the first with task 0. Answers the queue
// that the call leaves.
pub fn step(pool: &mut [u8], queue: Queue, made: Record, out: &mut Output) -> Queue
    requires { Room longest_step out.old }
    ensures { Stepped pool.old queue made out.old pool.new out.new result }
{
    let answer = call(pool, queue, made);
    transcript::answer_line(out, answer.code, answer.offset.0);
    for woken in &answer.woken {
        if woken.task == 0 {
            break;
        }
        transcript::woken_line(out, woken.task, woken.code, woken.offset.0);
    }
    answer.queue
}

// Writes the last line: the log ends behind `count` records, or what stands at the place `place` of the log is bad.
pub fn last(read: Result<Option<Taken>, BadRecord>, place: usize, count: usize, out: &mut Output)
    requires { Room longest_line out.old }
    ensures { Puts out.old (last_text read place count) out.new × (out.new.end ≤ out.old.end + longest_line) }
{
    match read {
        Ok(None) => transcript::end_line(out, count),
        Err(BadRecord) => transcript::bad_line(out, place),
        Ok(Some(_)) => {}
    }
}

// The call that a record stands for; a get or poll without a priority has the lowest.
pub fn call(pool: &mut [u8], queue: Queue, made: Record) -> Answer
    ensures { result_of result pool.new ≡ called (call_of made) pool.old queue }
{
    match made {
        Record::Get(task, size, limit) => {
            pool::get(pool, queue, task, size, limit, LOWEST_PRIORITY)
        }
        Record::Poll(task, size) => pool::poll(pool, queue, task, size, LOWEST_PRIORITY),
        Record::Release(offset) => pool::release(pool, queue, BlockOffset(offset as usize)),
        Record::Cancel(task) => pool::cancel(pool, queue, task),
        Record::Tick => pool::tick(pool, queue),
        Record::PriorityGet(task, size, limit, priority) => {
            pool::get(pool, queue, task, size, limit, priority)
        }
        Record::PriorityPoll(task, size, priority) => {
            pool::poll(pool, queue, task, size, priority)
        }
    }
}
