// Lengths that create takes or refuses, each refusal, and states that are not sound.
use crate::start::Example;
use crate::{script, show, start};
use model::{Entry, Queue};

// ---- lengths

fn length(buffer: &mut [u8]) {
    let queue = start::create(buffer);
    show::text("queue");
    show::queue(queue);
    show::text("\nbytes");
    show::first_bytes(buffer);
    show::text("\n");
}

// At the end the whole of a pool of 65,536 bytes, and one byte more.
fn lengths() {
    show::title("lengths");
    length(&mut [170; 0]);
    length(&mut [170; 8]);
    length(&mut [170; 14]);
    length(&mut [170; 65540]);
    length(&mut [170; 65536]);
    start::fresh(
        &mut [170; 65536],
        "inquire\nget 1 65529\nget 1 65528\ninquire\n",
    );
}

// ---- refusals after e, where tasks 3 and 4 wait

// Where several tests fail, the first decides.
fn requests() {
    show::title("refused requests, after e");
    let mut buffer = [170; 64];
    let e = start::e(&mut buffer);
    let no_task = start::get_below(&mut buffer, e, 0, 0);
    let too_great = script::run(&mut buffer, no_task, "poll 33 57\nget 5 0\npoll 3 57\n");
    let no_limit = start::get_below(&mut buffer, too_great, 3, 4);
    script::run(
        &mut buffer,
        no_limit,
        "get 3 4\npoll 4 4\nget 5 4 limit 0\nshow\n",
    );
}

// Offsets below every block, past the pool and of a free run.
fn others() {
    start::after(
        Example::E,
        "# refused releases and cancels, after e\n\
        release 7\n\
        release 72\n\
        release 56\n\
        cancel 0\n\
        cancel 33\n\
        cancel 1\n\
        show\n",
    );
}

// ---- states that are not sound

// Every call but create; task 33 would be refused by a later test.
pub fn all_calls(buffer: &mut [u8; 64], spoiled: Queue) {
    script::run(
        buffer,
        spoiled,
        "get 33 4\npoll 33 4\nrelease 8\ncancel 33\ntick\ninquire\nshow\n",
    );
}

// The first block has an owner above 32.
fn spoiled_pool() {
    show::title("owner 33, after e");
    let mut buffer = [170; 64];
    let e = start::e(&mut buffer);
    buffer[4] = 33;
    all_calls(&mut buffer, e);
}

// Task 3 alone in the queue, with an entry that no call would leave there.
fn spoiled_queue(size: u32, left: u32) {
    let mut buffer = [170; 64];
    let mut queue = start::c(&mut buffer);
    queue.entries[0] = Entry {
        task: 3,
        priority: 16,
        size,
        left,
    };
    all_calls(&mut buffer, queue);
}

pub fn run() {
    lengths();
    requests();
    others();
    spoiled_pool();
    show::title("a head that fits, after c");
    spoiled_queue(8, 1);
    show::title("a time left above the greatest, after c");
    spoiled_queue(12, 2147483649);
}
