// The states that examples begin with.
use crate::{script, show};
use model::{Attributes, DEFAULTS, LOWEST_PRIORITY, Queue};

// Examples whose state others begin with: values and no functions, since a function as a parameter is asked to be callable by a clause.
#[derive(Clone, Copy)]
pub enum Example {
    B,
    C,
    E,
}

// Create by the defaults, written with what it answers.
pub fn create(buffer: &mut [u8]) -> Queue {
    show::text("create");
    show::number(buffer.len());
    show::told(pool::create(buffer, DEFAULTS))
}

// With the attributes given, and written with what the queue keeps.
pub fn create_with(buffer: &mut [u8], attributes: Attributes) -> Queue {
    show::text("create");
    show::number(buffer.len());
    show::attributes(attributes);
    let queue = show::told(pool::create(buffer, attributes));
    show::kept(queue);
    queue
}

// A script on a pool that was just created.
pub fn fresh(buffer: &mut [u8], lines: &str) {
    let queue = create(buffer);
    script::run(buffer, queue, lines);
}

// A get without a limit, left without writing a line.
fn get(buffer: &mut [u8], queue: Queue, task: u32, size: u32) -> Queue {
    pool::get(buffer, queue, task, size, -1, LOWEST_PRIORITY).queue
}

// The states of the examples b, c and e, left without writing a line.
pub fn b(buffer: &mut [u8; 64]) -> Queue {
    let a = pool::create(buffer, DEFAULTS).queue;
    get(buffer, a, 1, 10)
}

pub fn c(buffer: &mut [u8; 64]) -> Queue {
    let b = b(buffer);
    get(buffer, b, 2, 20)
}

pub fn e(buffer: &mut [u8; 64]) -> Queue {
    let c = c(buffer);
    let d = get(buffer, c, 3, 12);
    get(buffer, d, 4, 4)
}

// A script on one of these.
pub fn after(example: Example, lines: &str) {
    let mut buffer = [170; 64];
    let queue = left(example, &mut buffer);
    script::run(&mut buffer, queue, lines);
}

fn left(example: Example, buffer: &mut [u8; 64]) -> Queue {
    match example {
        Example::B => b(buffer),
        Example::C => c(buffer),
        Example::E => e(buffer),
    }
}

// A get whose limit is -2, which the readable form can't say.
pub fn get_below(buffer: &mut [u8], queue: Queue, task: u32, size: u32) -> Queue {
    show::text("get");
    show::number(task as usize);
    show::number(size as usize);
    show::text(" limit -2");
    show::told(pool::get(buffer, queue, task, size, -2, LOWEST_PRIORITY))
}
