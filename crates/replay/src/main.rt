// Replays a log of calls from standard input on a pool of zeros, and writes its text to standard output.
#![tactic(auto)]

use model::DEFAULTS;

// One byte more than the longest log, so that a longer one is told from it.
const INPUT_SPACE: usize = 65537;

fn main() {
    let mut input = [0u8; INPUT_SPACE];
    let n = io::read_full(0, &mut input);
    stages::replay(&input[..n], DEFAULTS);
}
