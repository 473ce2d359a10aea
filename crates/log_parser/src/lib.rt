// The parser: the log that a text says is written into a lent buffer.
#![tactic(auto)]

ghost use Rattle.std.specs.Prelude.{◌≤◌, ◌≡◌, length};
ghost use Rattle.std.proofs.Math.Option.{none};
ghost use Rattle.output.specs.Puts.{Room, Puts};
ghost use Rattle.output.specs.Fill.{outcome, bytes_in};
ghost use Rattle.text.specs.Words.{lines_of};
ghost use Rattle.log_text.specs.Reading.{parse_lines};
ghost use Rattle.log_parser.specs.Parser.{as_log, parse_text};
ghost use Rattle.log_parser.specs.Steps.{line_bytes, call_count, measured, RoomFor};

use lines::Lines;
use log_text::{LONGEST_TEXT, Line, Why};
use output::Output;

mod lines;
pub mod response;

// The most bytes of a record, and more than the start of a log has.
const LONGEST_RECORD: usize = 21;

// Why a text is not written as a log.
#[derive(Clone, Copy, Debug, PartialEq, Eq)]
pub enum ParseError {
    // the number of the first line that can't be taken, from 1 on, and why
    Refused(usize, Why),
    // more than LONGEST_TEXT bytes
    TooLong,
    // the buffer does not hold the log
    NoRoom,
}

// Writes the log that a text says into buf, and answers its length. An error keeps every byte of buf.
pub fn parse_text(text: &[u8], buf: &mut [u8]) -> Result<usize, ParseError>
    ensures { outcome result buf.new ≡ parse_text text.now buf.old }
{
    if LONGEST_TEXT < text.len() {
        return Err(ParseError::TooLong);
    }
    let length = measure(text)?;
    if buf.len() < length {
        return Err(ParseError::NoRoom);
    }
    let mut out = Output::new(buf);
    write_lines(&mut out, text);
    Ok(out.end)
}

// The length of the log that a text says, or the line that is refused.
fn measure(text: &[u8]) -> Result<usize, ParseError>
    ensures { result ≡ measured (parse_lines 1 none (lines_of text.now)) }
{
    let mut number: usize = 1;
    let mut count: usize = 0;
    let mut length: usize = 0;
    for line in Lines::new(text) {
        // the log has bytes once the pool line is taken
        let read = log_line::line_after(line, 0 < length, count);
        let said = read.map_err(|why| ParseError::Refused(number, why))?;
        length += line_length(said);
        count += call_count(said);
        number += 1;
    }
    if length == 0 {
        return Err(ParseError::Refused(number, Why::NoPoolLine));
    }
    Ok(length)
}

// Writes the log that a text says, from the start of the buffer.
fn write_lines(out: &mut Output, text: &[u8])
    requires { RoomFor (parse_lines 1 none (lines_of text.now)) out.old }
    ensures { Puts out.old (bytes_in (as_log (parse_lines 1 none (lines_of text.now)))) out.new }
{
    for line in Lines::new(text) {
        // no line of a text that has a log is refused
        let said = log_line::read_line(line, 0 < out.end).unwrap();
        write_line(out, said);
    }
}

// Writes what a line says.
fn write_line(out: &mut Output, said: Line)
    requires { Room (length (line_bytes said)) out.old }
    ensures { Puts out.old (line_bytes said) out.new }
{
    match said {
        Line::Blank => {}
        Line::Pool(n, order) => log_writer::write_start(out, n, order),
        Line::Call(item) => log_writer::write_record(out, item),
    }
}

// How many bytes that has. log_printer has one too: over both it would take the space as a parameter and the writing as a closure.
fn line_length(said: Line) -> usize
    requires { length (line_bytes said) ≤ 21 }
    ensures { result ≡ length (line_bytes said) }
{
    let mut bytes = [0; LONGEST_RECORD];
    let mut out = Output::new(&mut bytes);
    write_line(&mut out, said);
    out.end
}

// How many records a line has.
fn call_count(said: Line) -> usize
    ensures { result ≡ call_count said }
{
    usize::from(matches!(said, Line::Call(_)))
}
