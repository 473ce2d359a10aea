// Pools by priority.
use crate::{refusals, script, show, start};
use model::{Attributes, DEFAULTS, Entry, FIFO_ORDER, PRIORITY_ORDER, Queue};

fn ordered(order: u16) -> Attributes {
    Attributes { order, ..DEFAULTS }
}

// The blocks of example c, and the queue with another order.
fn after_c(buffer: &mut [u8; 64], order: u16) -> Queue {
    Queue {
        attributes: ordered(order),
        ..start::c(buffer)
    }
}

// A poll of equal priority is refused, one of better priority granted, and its release wakes nobody. A newcomer stands behind those of better or equal
// priority; nobody is served past the head, and after it those who fit, best first.
fn by_priority() {
    show::title("by priority, after c");
    let mut buffer = [170; 64];
    let c = after_c(&mut buffer, PRIORITY_ORDER);
    script::run(
        &mut buffer,
        c,
        "get 3 12 priority 9\n\
        poll 5 4 priority 9\n\
        poll 5 4 priority 1\n\
        release 56\n\
        show\n\
        get 4 4 priority 9\n\
        get 5 20 priority 1\n\
        get 6 4\n\
        show\n\
        release 8\n\
        cancel 5\n\
        show\n",
    );
}

// In a FIFO pool the priority is tested and kept, no more.
fn fifo() {
    show::title("who asked first, after c");
    let mut buffer = [170; 64];
    let c = after_c(&mut buffer, FIFO_ORDER);
    script::run(
        &mut buffer,
        c,
        "get 3 12 priority 9\n\
        poll 5 4 priority 1\n\
        get 4 4 priority 1\n\
        show\n\
        release 8\n\
        show\n",
    );
}

// The least and the greatest priority, and those beyond; the test of the task comes first, that for one that waits last.
fn numbers(order: u16) {
    let mut buffer = [170; 64];
    let c = after_c(&mut buffer, order);
    script::run(
        &mut buffer,
        c,
        "get 3 12 priority 0\n\
        poll 3 4 priority 17\n\
        get 33 12 priority 0\n\
        get 3 12 priority 1\n\
        get 4 12 priority 16\n\
        get 4 12 priority 17\n\
        show\n",
    );
}

fn orders() {
    show::title("orders of create");
    start::create_with(&mut [170; 64], ordered(FIFO_ORDER));
    start::create_with(&mut [170; 64], ordered(PRIORITY_ORDER));
    start::create_with(&mut [170; 64], ordered(2));
    start::create_with(&mut [170; 64], ordered(u16::MAX));
}

fn waiter(task: u16, priority: u16) -> Entry {
    Entry {
        task,
        priority,
        size: 12,
        left: 1,
    }
}

// Two entries that no call would leave there.
fn spoiled(order: u16, first: Entry, second: Entry) {
    let mut buffer = [170; 64];
    let mut queue = after_c(&mut buffer, order);
    queue.entries[0] = first;
    queue.entries[1] = second;
    refusals::all_calls(&mut buffer, queue);
}

pub fn run() {
    by_priority();
    fifo();
    show::title("priorities, after c");
    numbers(FIFO_ORDER);
    numbers(PRIORITY_ORDER);
    orders();
    show::title("a better priority behind a worse one, after c");
    spoiled(PRIORITY_ORDER, waiter(3, 9), waiter(4, 8));
    show::title("a priority of 0, after c");
    spoiled(FIFO_ORDER, waiter(3, 1), waiter(4, 0));
    show::title("a priority in an unused place, after c");
    let unused = Entry {
        priority: 1,
        ..Entry::default()
    };
    spoiled(PRIORITY_ORDER, waiter(3, 9), unused);
    show::title("an unknown order, after c");
    spoiled(2, waiter(3, 9), waiter(4, 9));
}
