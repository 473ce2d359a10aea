// A script: on each line a call in readable form, which is made and written with what it answers. `inquire` asks what is free, `show` writes the state, and
// a comment is written as it stands.
use crate::show;
use log_text::Line;
use model::Queue;

// Answers the queue that the script leaves.
pub fn run(buffer: &mut [u8], first: Queue, script: &str) -> Queue {
    let mut queue = first;
    for line in script.lines() {
        queue = step(buffer, queue, line);
    }
    queue
}

fn step(buffer: &mut [u8], queue: Queue, line: &str) -> Queue {
    if line == "show" {
        show::state(buffer, queue);
        return queue;
    }
    show::text(line);
    if line == "inquire" {
        show::totals(pool::inquire(buffer, queue));
        return queue;
    }
    let Ok(Line::Call(made)) = log_line::read_line(line.as_bytes(), true) else {
        show::text("\n");
        return queue;
    };
    show::told(player::call(buffer, queue, made))
}
