// Carries out a request to write a log, from standard input: writes the line `code length`, then the buffer's bytes.
// A request is words of four bytes, lowest byte first: the buffer's length, the pool's length and order, the lengths
// of the columns kinds, firsts, seconds, limits and priorities, then the columns; a limit is in two's complement.
// Byte i of the buffer is i % 251 before the call. What is no request writes nothing.
#![tactic(auto)]

use log_writer::Columns;
use output::Output;

// The most places of a column, and bytes of a buffer.
const MOST_ROWS: usize = 4100;

const LONGEST_BUFFER: usize = 86100;

// The words before the columns, and the most words and bytes of a request.
const HEAD: usize = 8;

const MOST_WORDS: usize = HEAD + 5 * MOST_ROWS;

const LONGEST_REQUEST: usize = 4 * MOST_WORDS;

fn read_words(chunks: &[[u8; 4]], words: &mut [u32]) {
    for (word, chunk) in words.iter_mut().zip(chunks) {
        *word = u32::from_le_bytes(*chunk);
    }
}

fn read_limits(words: &[u32], limits: &mut [i32]) {
    for (limit, word) in limits.iter_mut().zip(words) {
        *limit = word.cast_signed();
    }
}

fn fill(buf: &mut [u8]) {
    for (i, byte) in buf.iter_mut().enumerate() {
        *byte = (i % 251) as u8;
    }
}

fn line(code: i32, length: usize) {
    let mut text = [0u8; 64];
    let mut out = Output::new(&mut text);
    transcript::answer_line(&mut out, code, length);
    // the output has to be gone before its text is read
    let size = out.end;
    io::write_all(1, &text[..size]);
}

fn write(buf: &mut [u8], n: u32, order: u16, columns: Columns) {
    fill(buf);
    match log_writer::write_log(buf, n, order, columns) {
        Ok(length) => line(0, length),
        Err(error) => line(error.code(), 0),
    }
    io::write_all(1, buf);
}

// Carries out the request of the words; none where they are no request.
fn respond(words: &[u32], limits: &mut [i32], buffer: &mut [u8]) -> Option<()> {
    let ([size, n, order], rest) = words.split_first_chunk::<3>()?;
    let (lengths, rest) = rest.split_first_chunk::<5>()?;
    let lengths = lengths.map(|length| length as usize);
    if lengths.iter().any(|length| MOST_ROWS < *length) {
        return None;
    }
    let (kinds, rest) = rest.split_at_checked(lengths[0])?;
    let (firsts, rest) = rest.split_at_checked(lengths[1])?;
    let (seconds, rest) = rest.split_at_checked(lengths[2])?;
    let (limit_words, priorities) = rest.split_at_checked(lengths[3])?;
    if priorities.len() != lengths[4] {
        return None;
    }
    let buf = buffer.get_mut(..*size as usize)?;
    let limits = limits.get_mut(..limit_words.len())?;
    read_limits(limit_words, limits);
    // an order of more than 16 bits is as unknown as their greatest
    let order = u16::try_from(*order).unwrap_or(u16::MAX);
    write(
        buf,
        *n,
        order,
        Columns {
            kinds,
            firsts,
            seconds,
            limits,
            priorities,
        },
    );
    Some(())
}

fn carry_out(request: &[u8], words: &mut [u32]) -> Option<()> {
    let (chunks, rest) = request.as_chunks();
    if !rest.is_empty() {
        return None;
    }
    let words = words.get_mut(..chunks.len())?;
    read_words(chunks, words);
    let mut limits = [0i32; MOST_ROWS];
    let mut buffer = [0u8; LONGEST_BUFFER];
    respond(words, &mut limits, &mut buffer)
}

fn main() {
    let mut input = [0u8; LONGEST_REQUEST + 1];
    let mut words = [0u32; MOST_WORDS];
    let n = io::read_full(0, &mut input);
    let _ = carry_out(&input[..n], &mut words);
}
