// Reads a log from standard input, and writes its text to standard output, or why it has none.
#![tactic(auto)]

use log_printer::response;
use log_printer::response::LONGEST_PRINTED;
use log_text::LONGEST_LOG;

// One byte more than the longest log is read, so that a longer one is known.
// The calls of `log_from_text`: one function for both would take the step between as a parameter, for three lines.
fn main() {
    let mut log = [0u8; LONGEST_LOG + 1];
    let mut text = [0u8; LONGEST_PRINTED];
    let n = io::read_full(0, &mut log);
    let length = response::respond(&log[..n], &mut text);
    io::write_all(1, &text[..length]);
}
