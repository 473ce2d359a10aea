// Replays a log of calls from standard input on a pool of zeros whose choice of rounding and greatest request stand before it, and writes its text to
// standard output. Both are numbers as the log has them; where one of them is none, nothing is written. The order is the log's.
#![tactic(auto)]

use model::{Attributes, FIFO_ORDER};

// The choice in 16 bits; one that has more is as unknown as their greatest.
fn choice(number: u32) -> u16 {
    u16::try_from(number).unwrap_or(u16::MAX)
}

fn replay(input: &[u8]) {
    let Some(kinds) = numbers::read_number(input) else {
        return;
    };
    let input = &input[kinds.size..];
    let Some(greatest) = numbers::read_number(input) else {
        return;
    };
    stages::replay(
        &input[greatest.size..],
        Attributes {
            kinds: choice(kinds.value),
            order: FIFO_ORDER,
            greatest: greatest.value,
        },
    );
}

// A number has at most 5 bytes; a log of more than 65,536 is too long.
fn main() {
    let mut input = [0u8; 65547];
    let n = io::read_full(0, &mut input);
    replay(&input[..n]);
}
