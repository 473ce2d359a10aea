// Who is served, and when: several waiters at once, the order of the queue, time limits, and the calls of a log.
use crate::start::Example;
use crate::{script, show, start};

// Task 3 asks for 1 byte and has 4.
fn release_wakes_three() {
    show::title("a release wakes three");
    start::fresh(
        &mut [170; 64],
        "get 1 56\nget 2 4\nget 3 1 limit 7\nget 4 8\nrelease 8\nshow\n",
    );
}

// 44 bytes are free: too few for task 2; enough for tasks 3 and 4, and then too few for task 5.
fn cancel_wakes_two() {
    start::after(
        Example::B,
        "# a cancel wakes two behind it, after b\n\
        get 2 40\n\
        get 3 4\n\
        get 4 4 limit 9\n\
        get 5 16\n\
        cancel 2\n\
        show\n",
    );
}

// A run of 44 bytes would do for task 4, but task 3 came first and needs 48.
fn head_first() {
    start::after(
        Example::C,
        "# nobody is served past the head, after c\n\
        get 3 40\n\
        get 4 4\n\
        release 28\n\
        poll 5 4\n\
        show\n",
    );
}

fn ticks() {
    start::after(
        Example::C,
        "# expiries come before service, after c\n\
        get 3 12 limit 2\n\
        get 4 4\n\
        get 5 50 limit 2\n\
        get 6 4 limit 3\n\
        tick\nshow\n\
        tick\nshow\n\
        tick\nshow\n\
        tick\nshow\n",
    );
}

fn limits() {
    show::title("limits, after c");
    let mut buffer = [170; 64];
    let c = start::c(&mut buffer);
    let refused = start::get_below(&mut buffer, c, 3, 12);
    script::run(
        &mut buffer,
        refused,
        "get 3 12 limit 0\n\
        get 3 12\n\
        get 4 12 limit 1\n\
        get 5 12 limit 2147483647\n\
        show\n\
        tick\nshow\n\
        tick\nshow\n",
    );
}

fn log() {
    show::title("the calls of the log");
    start::fresh(
        &mut [170; 64],
        "get 1 10\nget 2 20\npoll 5 12\nrelease 8\nget 3 24\nrelease 28\nshow\n",
    );
}

pub fn run() {
    release_wakes_three();
    cancel_wakes_two();
    head_first();
    ticks();
    limits();
    start::after(
        Example::B,
        "# polls that are granted, after b\npoll 2 20\nget 5 4 limit 0\nshow\n",
    );
    log();
}
