// What is written: numbers, woken tasks, queues, block lists and bytes, by io, which goes on where standard output is gone.
use layout::header;
use model::{
    Answer, Attributes, Entry, FOREVER, HeaderPlace, LOWEST_PRIORITY, Queue, Totals, Woken,
};

pub fn text(s: &str) {
    io::write_all(1, s.as_bytes());
}

pub fn title(s: &str) {
    text("# ");
    text(s);
    text("\n");
}

fn decimal(n: u32) {
    io::print_decimal(1, u64::from(n));
}

pub fn number(n: usize) {
    text(" ");
    io::print_decimal(1, n as u64);
}

pub fn signed(value: i32) {
    text(if value < 0 { " -" } else { " " });
    decimal(value.unsigned_abs());
}

// An unused place is not written, here and in the queue.
fn woken(woken: &Woken) {
    if woken.task != 0 {
        text("w ");
        decimal(woken.task);
        signed(woken.code);
        number(woken.offset.0);
        text("\n");
    }
}

// The rest of a call's line, `: code offset`, and a line `w task code offset` for each woken task. Answers the queue.
pub fn told(answer: Answer) -> Queue {
    text(":");
    signed(answer.code);
    number(answer.offset.0);
    text("\n");
    for place in &answer.woken {
        woken(place);
    }
    answer.queue
}

// The rest of the line of an inquire.
pub fn totals(totals: Totals) {
    text(":");
    signed(totals.code);
    number(totals.sum);
    number(totals.greatest);
    text(" ");
    decimal(totals.head);
    text("\n");
}

// The task, the size as asked and the ticks left, and the priority where it is not the lowest.
fn entry(entry: &Entry) {
    if entry.task == 0 {
        return;
    }
    number(usize::from(entry.task));
    text(":");
    decimal(entry.size);
    text(":");
    if entry.left == FOREVER {
        text("forever");
    } else {
        decimal(entry.left);
    }
    if u32::from(entry.priority) != LOWEST_PRIORITY {
        text(" by");
        number(usize::from(entry.priority));
    }
}

// The choice of rounding, the greatest request and the order.
pub fn attributes(attributes: Attributes) {
    number(usize::from(attributes.kinds));
    text(" ");
    decimal(attributes.greatest);
    number(usize::from(attributes.order));
}

// What the queue keeps of them.
pub fn kept(queue: Queue) {
    text("kept");
    attributes(queue.attributes);
    text("\n");
}

pub fn queue(queue: Queue) {
    for place in &queue.entries {
        entry(place);
    }
}

// The size and the owner of each block, from 0 on.
fn blocks(pool: &[u8]) {
    let mut rest = pool;
    // from header to header, by the size of each
    while 8 <= rest.len() {
        let header = header::read_header(rest, HeaderPlace(0));
        number(header.size);
        text(":");
        io::print_decimal(1, header.owner as u64);
        if header.size < 8 || rest.len() < header.size {
            return;
        }
        rest = &rest[header.size..];
    }
}

// Bytes in hexadecimal, four to a group.
fn bytes(pool: &[u8]) {
    for (i, byte) in pool.iter().enumerate() {
        if i % 4 == 0 {
            text(" ");
        }
        io::print_hex(1, u64::from(*byte), 2);
    }
}

// The first 16 bytes, or all where there are fewer.
pub fn first_bytes(pool: &[u8]) {
    bytes(&pool[..pool.len().min(16)]);
}

// The block list, the queue and all bytes.
pub fn state(pool: &[u8], kept: Queue) {
    text("blocks");
    blocks(pool);
    text("\nqueue");
    queue(kept);
    text("\nbytes");
    bytes(pool);
    text("\n");
}
