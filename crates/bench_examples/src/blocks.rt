// Splitting and joining of blocks, and bytes of a task that look like a header.
use crate::start::Example;
use crate::{script, show, start};
use layout::header;
use model::HeaderPlace;

// A rest of 12 bytes is split off, a rest of 8 or 4 is not.
fn splits() {
    show::title("rests of 12, 8 and 4 bytes");
    start::fresh(&mut [170; 64], "get 1 44\nshow\n");
    start::fresh(&mut [170; 64], "get 1 45\nshow\n");
    start::fresh(&mut [170; 64], "get 1 49\nshow\n");
}

// The second release joins behind and before. Runs of 20 and 16 bytes are free, and both fit.
fn runs() {
    start::after(
        Example::C,
        "# joined on both sides, after c\n\
        release 8\n\
        release 28\n\
        show\n\
        inquire\n",
    );
    start::after(
        Example::C,
        "# the lowest run that fits, after c\n\
        release 8\n\
        inquire\n\
        get 3 8\n\
        show\n",
    );
}

// Among the bytes of task 2 stands what looks like the header of a block of 12 bytes, its own.
fn imitated() {
    show::title("what looks like a header is none, after c");
    let mut buffer = [170; 64];
    let c = start::c(&mut buffer);
    header::write_header(&mut buffer, HeaderPlace(28), 12, 2);
    script::run(&mut buffer, c, "release 36\nshow\n");
}

pub fn run() {
    splits();
    runs();
    imitated();
}
