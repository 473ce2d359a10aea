// Pools with size kinds.
use crate::{refusals, script, show, start};
use model::{Attributes, DEFAULTS, Queue, WITH_KINDS};

// A choice of rounding and a greatest request.
fn rounded(kinds: u16, greatest: u32) -> Attributes {
    Attributes {
        kinds,
        greatest,
        ..DEFAULTS
    }
}

// The greatest request is 20, so the kinds are 12 and 36.
fn two_kinds() {
    show::title("kinds 12 and 36");
    let mut buffer = [170; 64];
    let fresh = start::create_with(&mut buffer, rounded(WITH_KINDS, 20));
    let left = script::run(
        &mut buffer,
        fresh,
        "get 1 21\n\
        get 1 1\n\
        get 2 13\n\
        get 3 20\n\
        get 4 12 limit 5\n\
        show\n\
        release 8\n\
        cancel 3\n\
        show\n",
    );
    show::kept(left);
}

// The top kind and 8 just fit, or miss by 4; no greatest request; one above every kind; one without kinds; unknown choices.
fn choices() {
    show::title("choices of create");
    start::create_with(&mut [170; 20], rounded(WITH_KINDS, 1));
    start::create_with(&mut [170; 16], rounded(WITH_KINDS, 1));
    start::create_with(&mut [170; 380], rounded(WITH_KINDS, 372));
    start::create_with(&mut [170; 376], rounded(WITH_KINDS, 372));
    start::create_with(&mut [170; 764], rounded(WITH_KINDS, 373));
    start::create_with(&mut [170; 65536], rounded(WITH_KINDS, 49140));
    start::create_with(&mut [170; 65536], rounded(WITH_KINDS, 49141));
    start::create_with(&mut [170; 65536], rounded(WITH_KINDS, 201326580));
    start::create_with(&mut [170; 65536], rounded(WITH_KINDS, u32::MAX));
    start::create_with(&mut [170; 64], rounded(WITH_KINDS, 0));
    start::create_with(&mut [170; 64], rounded(0, 1));
    start::create_with(&mut [170; 64], rounded(2, 0));
    start::create_with(&mut [170; 64], rounded(u16::MAX, 20));
}

// A queue that keeps what create would refuse: a choice of 1 without a greatest request.
fn spoiled() {
    show::title("a choice without a greatest request");
    let mut buffer = [170; 64];
    let fresh = start::create_with(&mut buffer, rounded(WITH_KINDS, 20));
    refusals::all_calls(
        &mut buffer,
        Queue {
            attributes: rounded(WITH_KINDS, 0),
            ..fresh
        },
    );
}

pub fn run() {
    two_kinds();
    choices();
    spoiled();
}
