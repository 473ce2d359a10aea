// Reads a text from standard input, and writes the log that it says to standard output, or the line that is refused.
#![tactic(auto)]

use log_parser::response;
use log_text::{LONGEST_LOG, LONGEST_TEXT};

// A function of its own: in `main` the proof does not get past the million zeros of the text.
fn convert(text: &mut [u8], log: &mut [u8]) {
    let n = io::read_full(0, text);
    let length = response::respond(&text[..n], log);
    io::write_all(1, &log[..length]);
}

// One byte more than the longest text is read, so that a longer one is known.
fn main() {
    let mut text = [0u8; LONGEST_TEXT + 1];
    let mut log = [0u8; LONGEST_LOG];
    convert(&mut text, &mut log);
}
