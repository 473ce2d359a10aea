// The text of a whole log, gathered in stages and written to standard output.
#![tactic(auto)]

ghost use Rattle.std.specs.Prelude.{◌≤◌, ◌≡◌, length};
ghost use Rattle.transcript.specs.Transcript.{longest_log};
ghost use Rattle.stages.specs.Stages.{Empty, Ready, Begun, Lent, Played};

use call_log::LONGEST_LOG;
use model::{Attributes, LONGEST_POOL, Queue};
use output::Output;
use player::LONGEST_STEP;

// The bytes of text that are gathered before they are written.
const TEXT_SPACE: usize = 65536;

// What is left of a log: its place, the records taken before it, and the queue.
#[derive(Clone, Copy)]
struct Rest {
    at: usize,
    count: usize,
    queue: Queue,
}

// Writes the text that is gathered to standard output. Answers whether all was taken.
fn flush(out: &Output) -> bool
    requires { out.now.end ≤ length out.now.buffer.now }
{
    io::write_all(1, &out.buffer[..out.end])
}

// Takes records while the text gathered has room for another step. What is no record ends the log. Answers what is left of it, None where its last line
// is gathered.
fn play(log: &[u8], mut rest: Rest, pool: &mut [u8], out: &mut Output) -> Option<Rest>
    requires { Ready log.now out.old rest }
    ensures { Played log.now rest pool.old out.old pool.new out.new result }
{
    // by the place of a record, which the last line tells
    while out.end <= TEXT_SPACE - LONGEST_STEP {
        let read = call_log::read_record(&log[rest.at..]);
        let Ok(Some(taken)) = read else {
            player::last(read, rest.at, rest.count, out);
            return None;
        };
        let queue = player::step(pool, rest.queue, taken.record, out);
        rest = Rest {
            at: rest.at + taken.size,
            count: rest.count + 1,
            queue,
        };
    }
    Some(rest)
}

// Plays the log to its end, and writes the text that is gathered at each stage.
fn write_text(log: &[u8], first: Rest, pool: &mut [u8], out: &mut Output)
    requires { Ready log.now out.old first × Begun log.now pool.old out.old first }
{
    let mut left = play(log, first, pool, out);
    while flush(out)
        && let Some(rest) = left
    {
        out.end = 0;
        left = play(log, rest, pool, out);
    }
}

// The pool is created, and the records from the place `start` of the log on are made on it.
fn run(log: &[u8], start: usize, pool: &mut [u8], attributes: Attributes, out: &mut Output)
    requires { Lent log.now out.old start attributes pool.old }
{
    let made = pool::create(pool, attributes);
    if made.code != 0 {
        transcript::refused_line(out);
        flush(out);
        return;
    }
    transcript::pool_line(out, pool.len());
    let first = Rest {
        at: start,
        count: 0,
        queue: made.queue,
    };
    write_text(log, first, pool, out);
}

// A log that is not too long.
fn begin(log: &[u8], attributes: Attributes, out: &mut Output)
    requires { (length log.now ≤ longest_log) × Empty out.old }
{
    let Some(start) = call_log::read_start(log) else {
        transcript::bad_line(out, 0);
        flush(out);
        return;
    };
    let length = start.length as usize;
    if LONGEST_POOL < length {
        transcript::refused_line(out);
        flush(out);
        return;
    }
    let own = Attributes {
        order: start.order,
        ..attributes
    };
    let mut buffer = [0u8; LONGEST_POOL];
    run(log, start.size, &mut buffer[..length], own, out);
}

// Replays a log on a pool of zeros with these attributes but for the order, which the log says, and writes its text to standard output.
pub fn replay(log: &[u8], attributes: Attributes) {
    let mut text = [0u8; TEXT_SPACE];
    let mut out = Output::new(&mut text);
    if LONGEST_LOG < log.len() {
        transcript::too_long_line(&mut out);
        flush(&out);
        return;
    }
    begin(log, attributes, &mut out);
}
