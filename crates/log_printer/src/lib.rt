// The printer: the canonical text of a log is written into a lent buffer.
#![tactic(auto)]

ghost use Rattle.std.specs.Prelude.{◌+◌, ◌≤◌, ◌≡◌, ◌++◌, [], ◌∷◌, length, take, drop};
ghost use Rattle.output.specs.Puts.{Room, Puts};
ghost use Rattle.output.specs.Fill.{outcome};
ghost use Rattle.text.specs.Ascii.{ascii};
ghost use Rattle.text.specs.Decimal.{decimal};
ghost use Rattle.log_text.specs.Form.{keyword_text};
ghost use Rattle.log_text.specs.Printing.{longest_line, parts, pool_parts, parts_of, parts_text, print_records};
ghost use Rattle.log_text.specs.Printing.{option_words, flag_words, slot_words, slots_words, spaced};
ghost use Rattle.log_printer.specs.Printer.{print_log};
ghost use Rattle.log_printer.specs.Steps.{measured, text_in, RoomFor};

use call_log::{MOST_RECORDS, Record, limit_field};
use log_text::{Keyword, LONGEST_LOG, Parts, Slot};
use output::Output;

pub mod response;

// The most bytes of a line: a get with four numbers of ten digits.
const LONGEST_LINE: usize = 63;

// Why a log has no text.
#[derive(Clone, Copy, Debug, PartialEq, Eq)]
pub enum PrintError {
    // the place of the first record that can't be read
    Bad(usize),
    // more than MOST_RECORDS records
    TooMany,
    // more than LONGEST_LOG bytes
    TooLong,
    // the buffer does not hold the text
    NoRoom,
}

// Writes the canonical text of a log into buf, and answers its length. An error keeps every byte of buf.
pub fn print_log(log: &[u8], buf: &mut [u8]) -> Result<usize, PrintError>
    ensures { outcome result buf.new ≡ print_log log.now buf.old }
{
    if LONGEST_LOG < log.len() {
        return Err(PrintError::TooLong);
    }
    let start = call_log::read_start(log).ok_or(PrintError::Bad(0))?;
    let first = pool_parts(start.length, start.order);
    let length = measure(log, start.size, line_length(first))?;
    if buf.len() < length {
        return Err(PrintError::NoRoom);
    }
    let mut out = Output::new(buf);
    put_line(&mut out, first);
    put_records(&mut out, log, start.size);
    Ok(out.end)
}

// The length of the text of the records from `place` on, behind `first` bytes; or why they are refused.
fn measure(log: &[u8], place: usize, first: usize) -> Result<usize, PrintError>
    requires { (place ≤ length log.now) × (first ≤ longest_line) }
    ensures { result ≡ measured first (print_records place 0 0 log.now) }
{
    let mut at = place;
    let mut count: usize = 0;
    let mut length = first;
    // from record to record, by the place that an error tells; by `map_err` and `?` short records take a tenth longer
    loop {
        let Ok(read) = call_log::read_record(&log[at..]) else {
            return Err(PrintError::Bad(at));
        };
        let Some(taken) = read else { return Ok(length) };
        if MOST_RECORDS <= count {
            return Err(PrintError::TooMany);
        }
        length += line_length(parts_of(taken.record));
        at += taken.size;
        count += 1;
    }
}

// How many bytes a line has, as in log_parser.
fn line_length(parts: Parts) -> usize
    requires { length (parts_text parts) ≤ longest_line }
    ensures { result ≡ length (parts_text parts) }
{
    let mut line = [0; LONGEST_LINE];
    let mut out = Output::new(&mut line);
    put_line(&mut out, parts);
    out.end
}

// Writes the records from `place` on.
fn put_records(out: &mut Output, log: &[u8], place: usize)
    requires { RoomFor log.now place out.old }
    ensures { Puts out.old (text_in (print_records place 0 0 log.now)) out.new }
{
    let mut next = place;
    // from record to record, by its place; every record of a log that has a text can be read
    while let Some(taken) = call_log::read_record(&log[next..]).unwrap() {
        put_line(out, parts_of(taken.record));
        next += taken.size;
    }
}

// The first line of a text.
fn pool_parts(n: u32, order: u16) -> Parts
    ensures { result ≡ pool_parts n order }
{
    make_parts(Keyword::Pool, n, u32::from(order), 0, 0)
}

// The line of a record, here and not with its type, which knows no text.
fn parts_of(item: Record) -> Parts
    ensures { result ≡ parts_of item }
{
    match item {
        Record::Get(task, size, limit) => {
            make_parts(Keyword::Get, task, size, u64::from(limit_field(limit)), 0)
        }
        Record::Poll(task, size) => make_parts(Keyword::Poll, task, size, 0, 0),
        Record::Release(offset) => make_parts(Keyword::Release, offset, 0, 0, 0),
        Record::Cancel(task) => make_parts(Keyword::Cancel, task, 0, 0, 0),
        Record::Tick => make_parts(Keyword::Tick, 0, 0, 0, 0),
        Record::PriorityGet(task, size, limit, priority) => {
            let field = u64::from(limit_field(limit));
            make_parts(Keyword::Get, task, size, field, u64::from(priority) + 1)
        }
        Record::PriorityPoll(task, size, priority) => {
            make_parts(Keyword::Poll, task, size, u64::from(priority) + 1, 0)
        }
    }
}

fn make_parts(keyword: Keyword, a: u32, b: u32, c: u64, d: u64) -> Parts
    ensures { result ≡ parts keyword a b c d }
{
    Parts {
        keyword,
        arguments: [u64::from(a), u64::from(b), c, d],
    }
}

// Writes a line.
fn put_line(out: &mut Output, parts: Parts)
    requires { Room (length (parts_text parts)) out.old }
    ensures { Puts out.old (parts_text parts) out.new }
{
    let Parts { keyword, arguments } = parts;
    // an output of its own: no byte that is written can change its place, which stays in a register
    let mut line = Output {
        buffer: out.buffer,
        end: out.end,
    };
    put_keyword(&mut line, keyword);
    let form = keyword.form();
    // a turn for each argument, and not for each slot: the compiler unrolls a loop of so many turns
    for (i, argument) in arguments.iter().enumerate() {
        put_slot_at(&mut line, form, i, *argument);
    }
    line.put_byte(b'\n');
    out.end = line.end;
}

// Writes the first word.
fn put_keyword(out: &mut Output, keyword: Keyword)
    requires { Room (length (keyword_text keyword)) out.old }
    ensures { Puts out.old (keyword_text keyword) out.new }
{
    // byte by byte: a copy of so few bytes, of a length that is not known, costs more
    for &byte in keyword.text() {
        out.put_byte(byte);
    }
}

// Writes the words of slot number i of a line, counted from 0, or nothing behind the last slot.
fn put_slot_at(out: &mut Output, form: &[Slot], i: usize, argument: u64)
    requires { Room (length (spaced (slots_words (take 1 (drop i form.now)) (argument ∷ [])))) out.old }
    ensures { Puts out.old (spaced (slots_words (take 1 (drop i form.now)) (argument ∷ []))) out.new }
{
    if let Some(slot) = form.get(i) {
        put_slot(out, *slot, argument);
    }
}

// Writes the words of a slot, a space in front of each.
fn put_slot(out: &mut Output, slot: Slot, argument: u64)
    requires { Room (length (spaced (slot_words slot argument))) out.old }
    ensures { Puts out.old (spaced (slot_words slot argument)) out.new }
{
    match slot {
        Slot::Number => put_number(out, argument),
        Slot::Limit => put_option(out, b"limit", argument),
        Slot::Priority => put_option(out, b"priority", argument),
        Slot::Order => put_flag(out, b"priority", argument),
    }
}

// Writes a word and a number, or nothing.
fn put_option(out: &mut Output, name: &[u8], argument: u64)
    requires { Room (length (spaced (option_words name.now argument))) out.old }
    ensures { Puts out.old (spaced (option_words name.now argument)) out.new }
{
    if argument == 0 {
        return;
    }
    put_word(out, name);
    put_number(out, argument - 1);
}

// Writes a word, or nothing.
fn put_flag(out: &mut Output, name: &[u8], argument: u64)
    requires { Room (length (spaced (flag_words name.now argument))) out.old }
    ensures { Puts out.old (spaced (flag_words name.now argument)) out.new }
{
    if argument == 0 {
        return;
    }
    put_word(out, name);
}

// Writes a word.
fn put_word(out: &mut Output, word: &[u8])
    requires { Room (1 + length word.now) out.old }
    ensures { Puts out.old (ascii " " ++ word.now) out.new }
{
    out.put_byte(b' ');
    out.put(word);
}

// Writes a number.
fn put_number(out: &mut Output, n: u64)
    requires { Room (1 + length (decimal n)) out.old }
    ensures { Puts out.old (ascii " " ++ decimal n) out.new }
{
    out.put_byte(b' ');
    text::put_decimal(out, n as usize);
}
