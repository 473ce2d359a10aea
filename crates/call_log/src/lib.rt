// The log of calls, first the pool's length and order, then records: how it is read.
#![tactic(auto)]

ghost use Rattle.std.specs.Prelude.{◌≡◌, ◌≤◌, slice_index};
ghost use Rattle.call_log.specs.Record.{kind_of, field_count, limit_of, limit_field, limit_bound, record_from, record_of};
ghost use Rattle.call_log.specs.Log.{start_of};

use model::{FIFO_ORDER, PRIORITY_ORDER};
use numbers::Number;

#[derive(Clone, Copy, Debug, PartialEq, Eq)]
pub enum Record {
    // task, size, limit: -1 is forever, 0 is a poll, above 0 are ticks
    Get(u32, u32, i32),
    // task, size
    Poll(u32, u32),
    // offset
    Release(u32),
    // task
    Cancel(u32),
    Tick,
    // a get and a poll with a priority, which are kinds of their own in a log: task, size, limit, priority; task, size, priority
    PriorityGet(u32, u32, i32, u32),
    PriorityPoll(u32, u32, u32),
}

// The most bytes of a log that is replayed.
pub const LONGEST_LOG: usize = 65536;

// The most records of a log that is written.
pub const MOST_RECORDS: usize = 4096;

// What a log begins with.
#[derive(Clone, Copy, Debug, PartialEq, Eq)]
pub struct Start {
    // the pool's length and order, the order by the number that create takes
    pub length: u32,
    pub order: u16,
    // the place of the first record
    pub size: usize,
}

// A record at the start of the rest of a log.
#[derive(Clone, Copy, Debug, PartialEq, Eq)]
pub struct Taken {
    pub record: Record,
    // the place after it
    pub size: usize,
}

// What stands at the start of the rest of a log is no record.
#[derive(Clone, Copy, Debug, PartialEq, Eq)]
pub struct BadRecord;

// The kinds of record. Their numbers are 1 to 7 in this order.
#[derive(Clone, Copy, Debug, PartialEq, Eq)]
pub enum Kind {
    Get,
    Poll,
    Release,
    Cancel,
    Tick,
    PriorityGet,
    PriorityPoll,
    // of any other number: a kind and no None, since `field_count` answers on it too
    Unknown,
}

// A limit field, which is the limit plus 1, is at most 2^31.
const LIMIT_BOUND: u32 = 2147483648;

// Record 8, which has no fields and stands only directly behind the pool's length: the pool's order is by priority.
pub const ORDER_MARK: u32 = 8;

// The pool's length and order, at the start of a log: none where that is no number.
pub fn read_start(log: &[u8]) -> Option<Start>
    ensures { result ≡ start_of log.now }
{
    let Number {
        value: length,
        size,
    } = numbers::read_number(log)?;
    let (order, size) = match numbers::read_number(&log[size..]) {
        Some(mark) if mark.value == ORDER_MARK => (PRIORITY_ORDER, size + mark.size),
        _ => (FIFO_ORDER, size),
    };
    Some(Start {
        length,
        order,
        size,
    })
}

// The record at the start of the rest of a log, or none at the clean end.
pub fn read_record(rest: &[u8]) -> Result<Option<Taken>, BadRecord>
    ensures { result ≡ record_of rest.now }
{
    if rest.is_empty() {
        return Ok(None);
    }
    let number = numbers::read_number(rest).ok_or(BadRecord)?;
    let kind = kind_of(number.value);
    let mut fields = [0; 4];
    let mut size = number.size;
    for field in &mut fields[..field_count(kind)] {
        let number = numbers::read_number(&rest[size..]).ok_or(BadRecord)?;
        *field = number.value;
        size += number.size;
    }
    let record = record_from(kind, fields).ok_or(BadRecord)?;
    Ok(Some(Taken { record, size }))
}

// The kind of a number: no TryFrom, since `Unknown` is a kind too.
pub fn kind_of(number: u32) -> Kind
    ensures { result ≡ kind_of number }
{
    match number {
        1 => Kind::Get,
        2 => Kind::Poll,
        3 => Kind::Release,
        4 => Kind::Cancel,
        5 => Kind::Tick,
        6 => Kind::PriorityGet,
        7 => Kind::PriorityPoll,
        _ => Kind::Unknown,
    }
}

// How many fields follow a kind.
pub fn field_count(kind: Kind) -> usize
    ensures { result ≡ field_count kind }
{
    match kind {
        Kind::PriorityGet => 4,
        Kind::Get | Kind::PriorityPoll => 3,
        Kind::Poll => 2,
        Kind::Release | Kind::Cancel => 1,
        Kind::Tick | Kind::Unknown => 0,
    }
}

// The record of a kind with the fields, as many as the kind has.
fn record_from(kind: Kind, fields: [u32; 4]) -> Option<Record>
    ensures { result ≡ record_from kind (slice_index fields 0) (slice_index fields 1) (slice_index fields 2) (slice_index fields 3) }
{
    let [a, b, c, d] = fields;
    match kind {
        Kind::Get if c <= LIMIT_BOUND => Some(Record::Get(a, b, limit_of(c))),
        Kind::Poll => Some(Record::Poll(a, b)),
        Kind::Release => Some(Record::Release(a)),
        Kind::Cancel => Some(Record::Cancel(a)),
        Kind::Tick => Some(Record::Tick),
        Kind::PriorityGet if c <= LIMIT_BOUND => Some(Record::PriorityGet(a, b, limit_of(c), d)),
        Kind::PriorityPoll => Some(Record::PriorityPoll(a, b, c)),
        Kind::Get | Kind::PriorityGet | Kind::Unknown => None,
    }
}

// The limit of a get, from its field; below the other way. No From, since a field above 2^31 has no limit.
pub fn limit_of(field: u32) -> i32
    requires { field ≤ limit_bound }
    ensures { result ≡ limit_of field }
{
    field.checked_sub(1).map_or(-1, |ticks| ticks as i32)
}

// The field of a get's limit: the limit plus 1.
pub fn limit_field(limit: i32) -> u32
    ensures { result ≡ limit_field limit }
{
    u32::try_from(limit).map_or(0, |ticks| ticks + 1)
}
