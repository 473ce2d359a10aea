// Replays a log of calls from standard input on a pool of zeros, and writes a line `reason place` for each answer. A log that cannot be
// started writes nothing; what is no record ends it.
#![tactic(auto)]

use call_log::LONGEST_LOG;
use model::{Attributes, DEFAULTS, HeaderPlace, LONGEST_POOL, Queue};

// By io and not `println!`, which ends the program where standard output is gone.
fn line(reason: u32, place: HeaderPlace) {
    io::print_decimal(1, u64::from(reason));
    io::write_all(1, b" ");
    io::print_decimal(1, place.0 as u64);
    io::write_all(1, b"\n");
}

// Makes the calls of the records.
fn play(records: &[u8], pool: &mut [u8], first: Queue) {
    let mut rest = records;
    let mut queue = first;
    while let Ok(Some(taken)) = call_log::read_record(rest) {
        let answer = player::call(pool, queue, taken.record);
        line(answer.reason, answer.place);
        queue = answer.queue;
        rest = &rest[taken.size..];
    }
}

fn run(records: &[u8], order: u16, pool: &mut [u8]) {
    let made = pool::create(pool, Attributes { order, ..DEFAULTS });
    if made.code == 0 {
        play(records, pool, made.queue);
    }
}

// A log that is not too long, begun as `stages` does, but for the lines that it writes. One function for both would be
// handed what it does with an answer, and `stages` promises the whole text.
fn replay(log: &[u8]) {
    let Some(start) = call_log::read_start(log) else {
        return;
    };
    let length = start.length as usize;
    if length <= LONGEST_POOL {
        let mut buffer = [0u8; LONGEST_POOL];
        run(&log[start.size..], start.order, &mut buffer[..length]);
    }
}

fn main() {
    let mut input = [0u8; LONGEST_LOG + 1];
    let n = io::read_full(0, &mut input);
    if n <= LONGEST_LOG {
        replay(&input[..n]);
    }
}
