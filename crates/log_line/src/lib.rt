// The line of a text: its words are taken from left to right.
#![tactic(auto)]

ghost use Rattle.std.specs.Prelude.{◌≤◌, ◌≡◌, true, [], drop};
ghost use Rattle.call_log.specs.Record.{limit_of, limit_bound};
ghost use Rattle.text.specs.Words.{words_in, words_of};
ghost use Rattle.log_text.specs.Form.{form, Bounded};
ghost use Rattle.log_text.specs.Reading.{take_number, take_option, take_word, take_slot, take_slots, get_with, poll_with, order_with, extra, made, keyword_of, unknown, line_of, limited};
ghost use Rattle.log_line.specs.Steps.{seen};

use call_log::{MOST_RECORDS, Record};
use log_text::{Keyword, LIMIT_MOST, Line, NUMBER_MOST, Slot, Why};
use model::{FIFO_ORDER, PRIORITY_ORDER};
use text::words;
use text::words::{Class, NumeralError, Word};

// What a slot takes from a line: the argument, and the place after its words.
#[derive(Clone, Copy)]
struct Argument {
    value: u64,
    next: usize,
}

// The next line of a text, behind `count` records; `begun`, here and below, says that the pool line was taken (`line_of`).
pub fn line_after(line: &[u8], begun: bool, count: usize) -> Result<Line, Why>
    ensures { result ≡ limited count (line_of begun (words_of line.now)) }
{
    let said = read_line(line, begun)?;
    let is_full = MOST_RECORDS <= count;
    if is_full && matches!(said, Line::Call(_)) {
        return Err(Why::TooManyRecords);
    }
    Ok(said)
}

// What a line says, before the pool line or behind it.
pub fn read_line(line: &[u8], begun: bool) -> Result<Line, Why>
    ensures { result ≡ line_of begun (words_of line.now) }
{
    let end = words::span_end(line, 0, Class::Plain);
    read_words(&line[..end], begun)
}

fn read_words(s: &[u8], begun: bool) -> Result<Line, Why>
    ensures { result ≡ line_of begun (words_in s.now) }
{
    let Some(word) = words::next_word(s, 0) else {
        return Ok(Line::Blank);
    };
    match keyword_of(&s[word.start..word.end], begun) {
        Keyword::Unknown => Err(unknown_word(begun)),
        keyword => read_slots(s, word.end, keyword),
    }
}

fn unknown_word(begun: bool) -> Why
    ensures { result ≡ unknown begun }
{
    if begun {
        Why::UnknownWord
    } else {
        Why::NoPoolLine
    }
}

// The first word of a line.
#[tactic(auto, using(crate::proofs::Keywords::same_laws), unfolding(text::specs::Words::same))]
fn keyword_of(word: &[u8], begun: bool) -> Keyword
    ensures { result ≡ keyword_of begun word.now }
{
    match (begun, word) {
        (false, b"pool") => Keyword::Pool,
        (true, b"get") => Keyword::Get,
        (true, b"poll") => Keyword::Poll,
        (true, b"release") => Keyword::Release,
        (true, b"cancel") => Keyword::Cancel,
        (true, b"tick") => Keyword::Tick,
        _ => Keyword::Unknown,
    }
}

// The line of a first word, from the words behind it.
fn read_slots(s: &[u8], from: usize, keyword: Keyword) -> Result<Line, Why>
    ensures { result ≡ made keyword (take_slots (form keyword) (words_in (drop from s.now))) }
{
    let mut arguments = [0; 4];
    let mut at = from;
    for (i, slot) in keyword.form().iter().enumerate() {
        let argument = read_slot(s, at, *slot)?;
        arguments[i] = argument.value;
        at = argument.next;
    }
    finish(s, at, keyword, arguments)
}

// The line of a first word and its arguments, if no word is left from the place `at` on.
fn finish(s: &[u8], at: usize, keyword: Keyword, arguments: [u64; 4]) -> Result<Line, Why>
    requires { Bounded (form keyword) arguments }
    ensures { result ≡ made keyword (Ok (arguments, words_in (drop at s.now))) }
{
    let Some(word) = words::next_word(s, at) else {
        return line_from(keyword, arguments);
    };
    let numeral = words::read_numeral(&s[word.start..word.end], NUMBER_MOST);
    Err(extra_word(numeral))
}

fn extra_word(numeral: Result<u32, NumeralError>) -> Why
    ensures { result ≡ extra numeral }
{
    match numeral {
        Ok(_) | Err(NumeralError::TooLarge) => Why::TooManyNumbers,
        Err(NumeralError::NotDigits) => Why::UnknownWord,
    }
}

// What a line says, from its first word and an argument for each of its slots.
fn line_from(keyword: Keyword, arguments: [u64; 4]) -> Result<Line, Why>
    requires { Bounded (form keyword) arguments }
    ensures { result ≡ made keyword (Ok (arguments, [])) }
{
    let [a, b, c, d] = arguments;
    let record = match keyword {
        Keyword::Pool => return Ok(Line::Pool(a as u32, order_with(b))),
        Keyword::Get => get_with(a as u32, b as u32, c, d),
        Keyword::Poll => poll_with(a as u32, b as u32, c),
        Keyword::Release => Record::Release(a as u32),
        Keyword::Cancel => Record::Cancel(a as u32),
        Keyword::Tick => Record::Tick,
        Keyword::Unknown => return Err(Why::UnknownWord),
    };
    Ok(Line::Call(record))
}

fn order_with(argument: u64) -> u16
    ensures { result ≡ order_with argument }
{
    if argument == 0 {
        FIFO_ORDER
    } else {
        PRIORITY_ORDER
    }
}

// A get with a priority or without, by an argument; below a poll, which has no limit.
fn get_with(task: u32, size: u32, limit: u64, priority: u64) -> Record
    requires { (limit ≤ limit_bound) × (priority ≤ 4294967296) }
    ensures { result ≡ get_with task size (limit_of limit) priority }
{
    let ticks = call_log::limit_of(limit as u32);
    if priority == 0 {
        return Record::Get(task, size, ticks);
    }
    Record::PriorityGet(task, size, ticks, (priority - 1) as u32)
}

fn poll_with(task: u32, size: u32, priority: u64) -> Record
    requires { priority ≤ 4294967296 }
    ensures { result ≡ poll_with task size priority }
{
    if priority == 0 {
        return Record::Poll(task, size);
    }
    Record::PriorityPoll(task, size, (priority - 1) as u32)
}

// What a slot takes from the words from the place `at` on.
fn read_slot(s: &[u8], at: usize, slot: Slot) -> Result<Argument, Why>
    ensures { seen s.now result ≡ take_slot slot (words_in (drop at s.now)) }
{
    match slot {
        Slot::Number => read_number(s, at, NUMBER_MOST),
        Slot::Limit => read_option(s, at, b"limit", LIMIT_MOST),
        Slot::Priority => read_option(s, at, b"priority", NUMBER_MOST),
        Slot::Order => Ok(read_flag(s, at, b"priority")),
    }
}

fn read_number(s: &[u8], at: usize, most: u32) -> Result<Argument, Why>
    ensures { seen s.now result ≡ take_number most (words_in (drop at s.now)) }
{
    let word = words::next_word(s, at).ok_or(Why::MissingNumber)?;
    match words::read_numeral(&s[word.start..word.end], most) {
        Ok(v) => Ok(Argument {
            value: u64::from(v),
            next: word.end,
        }),
        Err(NumeralError::TooLarge) => Err(Why::NumberTooLarge),
        Err(NumeralError::NotDigits) => Err(Why::MissingNumber),
    }
}

// A word and a number, or nothing.
fn read_option(s: &[u8], at: usize, name: &[u8], most: u32) -> Result<Argument, Why>
    ensures { seen s.now result ≡ take_option name.now most (words_in (drop at s.now)) }
{
    let flag = read_flag(s, at, name);
    if flag.value == 0 {
        return Ok(flag);
    }
    let number = read_number(s, flag.next, most)?;
    Ok(Argument {
        value: number.value + 1,
        ..number
    })
}

// A word, or nothing.
fn read_flag(s: &[u8], at: usize, name: &[u8]) -> Argument
    ensures { seen s.now (Ok result) ≡ take_word name.now (words_in (drop at s.now)) }
{
    match words::next_word(s, at) {
        Some(word) if words::is_same(&s[word.start..word.end], name) => Argument {
            value: 1,
            next: word.end,
        },
        _ => Argument { value: 0, next: at },
    }
}
