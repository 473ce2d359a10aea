// Examples a to l.
use crate::start::Example;
use crate::{show, start};

fn a_to_e() {
    show::title("a");
    start::fresh(
        &mut [170; 64],
        "show\n\
        # b, after a\n\
        get 1 10\n\
        show\n\
        # c, after b\n\
        get 2 20\n\
        show\n\
        # d, after c\n\
        get 3 12\n\
        show\n\
        # e, after d\n\
        get 4 4\n\
        show\n",
    );
}

// A refused poll changes nothing, and inquire tells the same before and after it.
fn f_to_j() {
    start::after(
        Example::E,
        "# f, after e\ninquire\npoll 5 4\ninquire\nshow\n",
    );
    start::after(Example::E, "# g, after e\ncancel 3\nshow\n");
    start::after(Example::E, "# h, after e\nrelease 8\nshow\n");
    start::after(Example::C, "# i, after c\nrelease 28\nshow\n");
    start::after(
        Example::C,
        "# j, after c\nrelease 12\nrelease 8\nrelease 8\nshow\n",
    );
}

// One more than the greatest size, then the greatest. One tick wakes nobody, the second ends the wait.
fn k_and_l() {
    show::title("k");
    start::fresh(&mut [170; 64], "get 1 57\nget 1 56\nshow\n");
    show::title("k");
    start::fresh(&mut [170; 12], "get 1 5\nget 1 4\nshow\n");
    start::after(
        Example::C,
        "# l, after c\nget 3 12 limit 1\nget 4 4\ntick\nshow\ntick\nshow\n",
    );
}

pub fn run() {
    a_to_e();
    f_to_j();
    k_and_l();
}
