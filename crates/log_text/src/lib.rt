// The text form of a log: the words of its lines, and what stands behind each.
#![tactic(auto)]

ghost use Rattle.std.specs.Prelude.{◌+◌, ◌≤◌, ◌≡◌, length};
ghost use Rattle.output.specs.Puts.{Room, Puts};
ghost use Rattle.log_text.specs.Form.{keyword_text, form};
ghost use Rattle.log_text.specs.Reasons.{why_text};

use call_log::Record;
use output::Output;

// The first word of a line.
#[derive(Clone, Copy, Debug, PartialEq, Eq)]
pub enum Keyword {
    Pool,
    Get,
    Poll,
    Release,
    Cancel,
    Tick,
    // any other word; a variant, since the definitions `keyword_text` and `form` answer on it too
    Unknown,
}

// What may stand at a place behind the first word.
#[derive(Clone, Copy, Debug, PartialEq, Eq)]
pub enum Slot {
    // a number
    Number,
    // the word limit and a number, or nothing
    Limit,
    // the word priority and a number, or nothing
    Priority,
    // the word priority, or nothing
    Order,
}

// Why a line is refused.
#[derive(Clone, Copy, Debug, PartialEq, Eq)]
pub enum Why {
    // the first word is no keyword, or a word that is no number stands where the line should end
    UnknownWord,
    // a number should stand here
    MissingNumber,
    // the number is above the most that may stand here
    NumberTooLarge,
    // a number stands where the line should end
    TooManyNumbers,
    // the text does not begin with the line of the pool
    NoPoolLine,
    // a record more than a log may have
    TooManyRecords,
}

// What a line says.
#[derive(Clone, Copy, Debug, PartialEq, Eq)]
pub enum Line {
    // it has no words
    Blank,
    // the pool's length and order, the order by the number that create takes
    Pool(u32, u16),
    Call(Record),
}

// A line as its first word and an argument for each slot, then zeros. The argument of a number is the number, and that of an
// option is 0 where it is not there, else its number plus 1, as a log has a limit (`option_words`, `take_slots`), or 1 where it has none.
#[derive(Clone, Copy)]
pub struct Parts {
    pub keyword: Keyword,
    pub arguments: [u64; 4],
}

// The most bytes of a text.
pub const LONGEST_TEXT: usize = 1048576;

// The most bytes of a log that a text says or that is printed: 6 for its start, and 21 for each of 4,096 records.
pub const LONGEST_LOG: usize = 86022;

// The greatest number, and the greatest limit.
pub const NUMBER_MOST: u32 = u32::MAX;

pub const LIMIT_MOST: u32 = i32::MAX as u32;

impl Keyword {
    // The word, which is empty for an unknown one.
    pub fn text(self) -> &'static [u8]
        ensures { result.now ≡ keyword_text self }
    {
        match self {
            Keyword::Pool => b"pool",
            Keyword::Get => b"get",
            Keyword::Poll => b"poll",
            Keyword::Release => b"release",
            Keyword::Cancel => b"cancel",
            Keyword::Tick => b"tick",
            Keyword::Unknown => b"",
        }
    }

    // The slots behind the word, in their order.
    pub fn form(self) -> &'static [Slot]
        ensures { result.now ≡ form self }
    {
        match self {
            Keyword::Pool => &[Slot::Number, Slot::Order],
            Keyword::Get => &[Slot::Number, Slot::Number, Slot::Limit, Slot::Priority],
            Keyword::Poll => &[Slot::Number, Slot::Number, Slot::Priority],
            Keyword::Release | Keyword::Cancel => &[Slot::Number],
            Keyword::Tick | Keyword::Unknown => &[],
        }
    }
}

impl Why {
    // The reason in words, with a newline.
    pub fn text(self) -> &'static [u8]
        ensures { result.now ≡ why_text self }
    {
        match self {
            Why::UnknownWord => b"unknown word\n",
            Why::MissingNumber => b"missing number\n",
            Why::NumberTooLarge => b"number too large\n",
            Why::TooManyNumbers => b"too many numbers\n",
            Why::NoPoolLine => b"no pool line\n",
            Why::TooManyRecords => b"more than 4,096 records\n",
        }
    }
}

// Writes why a line is refused.
pub fn put_why(out: &mut Output, why: Why)
    requires { Room (length (why_text why)) out.old }
    ensures { Puts out.old (why_text why) out.new }
{
    out.put(why.text());
}
