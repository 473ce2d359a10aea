// The log writer: a pool's length and order and records, given in columns, are written into a lent buffer.
#![tactic(auto)]

ghost use Rattle.std.specs.Prelude.{◌≡◌, ◌+◌, ◌≤◌, ◌<◌, length};
ghost use Rattle.output.specs.Puts.{Room, Puts};
ghost use Rattle.output.specs.Fill.{outcome};
ghost use Rattle.call_log.specs.Fields.{encode_fields};
ghost use Rattle.call_log.specs.Record.{encode_record};
ghost use Rattle.call_log.specs.Log.{start_bytes};
ghost use Rattle.log_writer.specs.Writer.{given, row, row_of, lent, level, regular, row_at, code_of, write_log};
ghost use Rattle.log_writer.specs.Steps.{Level, Started, is_some, needed_for, third_of, numbers_of, Holds, Counted, rows_bytes};

use call_log::{Kind, MOST_RECORDS, ORDER_MARK, Record};
use model::{E_NOMEM, E_PAR, FIFO_ORDER, PRIORITY_ORDER};
use output::Output;

// Why a log is not written.
#[derive(Clone, Copy, Debug, PartialEq, Eq)]
pub enum WriteError {
    // an unknown order, columns of unequal length, more than MOST_RECORDS records, or one that a log can't express
    Parameter,
    // the buffer is shorter than the log
    NoRoom,
}

impl WriteError {
    pub fn code(self) -> i32
        ensures { result ≡ code_of self }
    {
        match self {
            WriteError::Parameter => E_PAR,
            WriteError::NoRoom => E_NOMEM,
        }
    }
}

// Records in columns, one at each place, as callers have them: columns of unequal length are refused, which a slice of records could not show. A field
// that a record's kind does not have is not looked at.
#[derive(Clone, Copy, Debug)]
pub struct Columns<'a> {
    // the numbers of the kinds
    pub kinds: &'a [u32],
    // a get's, poll's or cancel's task, a release's offset
    pub firsts: &'a [u32],
    // a get's or poll's size
    pub seconds: &'a [u32],
    // a get's limit
    pub limits: &'a [i32],
    // the priority of the kinds 6 and 7
    pub priorities: &'a [u32],
}

impl Columns<'_> {
    // Whether the columns are equally long.
    fn are_level(self) -> bool
        ensures { result ≡ level (lent self.entry) }
    {
        let count = self.kinds.len();
        self.firsts.len() == count
            && self.seconds.len() == count
            && self.limits.len() == count
            && self.priorities.len() == count
    }

    // Whether the order is known, and the columns are equally long and hold at most as many records as a log.
    fn are_regular(self, order: u16) -> bool
        ensures { result ≡ regular order (lent self.entry) }
    {
        let is_known = order == FIFO_ORDER || order == PRIORITY_ORDER;
        let is_short = self.kinds.len() <= MOST_RECORDS;
        is_known && is_short && self.are_level()
    }

    // The record at the place i.
    fn row_at(self, i: usize) -> Row
        requires level { Level (lent self) }
        requires i_in_bounds { i < length self.kinds.now }
        ensures { result ≡ row_at (lent self.entry) i }
    {
        Row {
            kind: self.kinds[i],
            first: self.firsts[i],
            second: self.seconds[i],
            limit: self.limits[i],
            priority: self.priorities[i],
        }
    }
}

// A record as it is given: the number of its kind, which may be that of none, and its fields. Those that the kind does not have are not looked at.
#[derive(Clone, Copy)]
struct Row {
    kind: u32,
    first: u32,
    second: u32,
    limit: i32,
    priority: u32,
}

impl From<Record> for Row {
    ghost from_gives = { λ item row. row ≡ row_of item };

    fn from(item: Record) -> Row {
        match item {
            Record::Get(task, size, limit) => Row::new(1, task, size, limit, 0),
            Record::Poll(task, size) => Row::new(2, task, size, 0, 0),
            Record::Release(offset) => Row::new(3, offset, 0, 0, 0),
            Record::Cancel(task) => Row::new(4, task, 0, 0, 0),
            Record::Tick => Row::new(5, 0, 0, 0, 0),
            Record::PriorityGet(task, size, limit, priority) => Row::new(
                6, task, size, limit, priority,
            ),
            Record::PriorityPoll(task, size, priority) => Row::new(7, task, size, 0, priority),
        }
    }
}

impl Row {
    // By the number of the kind, as `row_of` has it.
    fn new(kind: u32, first: u32, second: u32, limit: i32, priority: u32) -> Row
        ensures { result ≡ row kind first second limit priority }
    {
        Row {
            kind,
            first,
            second,
            limit,
            priority,
        }
    }

    // Whether the log can express a record: its kind is known, and a get's limit is at least -1.
    fn is_given(self) -> bool
        ensures { result ≡ is_some (given self) }
    {
        match call_log::kind_of(self.kind) {
            Kind::Get | Kind::PriorityGet => -1 <= self.limit,
            Kind::Poll | Kind::Release | Kind::Cancel | Kind::Tick | Kind::PriorityPoll => true,
            Kind::Unknown => false,
        }
    }

    // The number of the kind, then the fields that it has.
    fn numbers(self) -> Numbers
        ensures { Holds result.values result.count (numbers_of self) }
    {
        let kind = call_log::kind_of(self.kind);
        Numbers {
            values: [
                self.kind,
                self.first,
                self.second,
                self.third(kind),
                self.priority,
            ],
            count: 1 + call_log::field_count(kind),
        }
    }

    // The third field: the limit of a get, the priority of a poll that has one, 0 where there is none.
    fn third(self, kind: Kind) -> u32
        ensures { result ≡ third_of kind self }
    {
        match kind {
            Kind::Get | Kind::PriorityGet => call_log::limit_field(self.limit),
            Kind::PriorityPoll => self.priority,
            Kind::Poll | Kind::Release | Kind::Cancel | Kind::Tick | Kind::Unknown => 0,
        }
    }

    // How many bytes the record has.
    fn length(self) -> usize
        ensures { Counted (numbers_of self) result }
    {
        let numbers = self.numbers();
        numbers_length(&numbers.values[..numbers.count])
    }

    // Writes the record.
    fn write(self, out: &mut Output)
        requires { Room (length (encode_fields (numbers_of self))) out.old }
        ensures { Puts out.old (encode_fields (numbers_of self)) out.new }
    {
        let numbers = self.numbers();
        write_numbers(out, &numbers.values[..numbers.count]);
    }
}

// The numbers of a record: the first `count` of the values, since a slice of them can't be handed out.
#[derive(Clone, Copy)]
struct Numbers {
    values: [u32; 5],
    count: usize,
}

// Writes the log of the pool's length n and order and of the records in the columns, and answers its length.
// What no log can have is refused before a buffer too short; a refusal keeps every byte.
pub fn write_log(buf: &mut [u8], n: u32, order: u16, columns: Columns) -> Result<usize, WriteError>
    ensures { outcome result buf.new ≡ write_log n order (lent columns.entry) buf.old }
{
    let length = log_length(n, order, columns)?;
    if buf.len() < length {
        return Err(WriteError::NoRoom);
    }
    let mut out = Output::new(buf);
    write_start(&mut out, n, order);
    write_rows(&mut out, columns);
    Ok(out.end)
}

// The length of the log, where it can be written into some buffer.
fn log_length(n: u32, order: u16, columns: Columns) -> Result<usize, WriteError>
    ensures { result ≡ needed_for n order (lent columns.entry) }
{
    if !columns.are_regular(order) {
        return Err(WriteError::Parameter);
    }
    let mut length = start_length(n, order);
    // by the place: five columns zipped would be read worse
    for i in 0..columns.kinds.len() {
        let row = columns.row_at(i);
        if !row.is_given() {
            return Err(WriteError::Parameter);
        }
        length += row.length();
    }
    Ok(length)
}

// How many bytes the start of a log has.
fn start_length(n: u32, order: u16) -> usize
    ensures { Started n order result }
{
    let length = numbers::number_length(n);
    if order == PRIORITY_ORDER {
        return length + numbers::number_length(ORDER_MARK);
    }
    length
}

// Writes the start of a log.
pub fn write_start(out: &mut Output, n: u32, order: u16)
    requires { Room (length (start_bytes n order)) out.old }
    ensures { Puts out.old (start_bytes n order) out.new }
{
    numbers::write_number(out, n);
    if order == PRIORITY_ORDER {
        numbers::write_number(out, ORDER_MARK);
    }
}

// Writes the records.
fn write_rows(out: &mut Output, columns: Columns)
    requires level { Level (lent columns) }
    requires room { Room (length (rows_bytes (lent columns) 0 (length columns.kinds.now))) out.old }
    ensures { Puts out.old (rows_bytes (lent columns.entry) 0 (length columns.entry.kinds.now)) out.new }
{
    // by the place: five columns zipped would be read worse
    for i in 0..columns.kinds.len() {
        columns.row_at(i).write(out);
    }
}

// Writes a record.
pub fn write_record(out: &mut Output, item: Record)
    requires { Room (length (encode_record item)) out.old }
    ensures { Puts out.old (encode_record item) out.new }
{
    Row::from(item).write(out);
}

// How many bytes the numbers have.
fn numbers_length(values: &[u32]) -> usize
    ensures { Counted values.now result }
{
    let mut sum = 0;
    for value in values {
        sum += numbers::number_length(*value);
    }
    sum
}

// Writes the numbers.
fn write_numbers(out: &mut Output, values: &[u32])
    requires { Room (length (encode_fields values.now)) out.old }
    ensures { Puts out.old (encode_fields values.now) out.new }
{
    for value in values {
        numbers::write_number(out, *value);
    }
}
