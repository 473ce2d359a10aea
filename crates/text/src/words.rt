// Lines, words and numbers of a text. Places are counted in the whole text, as the clauses do that speak of the words from a place on.
ghost use Rattle.std.specs.Prelude.{◌≡◌, ◌+◌, length, drop};
ghost use Rattle.text.specs.Decimal.{all_digits};
ghost use Rattle.text.specs.Words.{is_blank, belongs, span, same, numeral_of};
ghost use Rattle.text.specs.Steps.{NextWord};

// Classes of bytes: values and no closures, since lines, words and numbers are defined by them (`span`, `pieces`).
#[derive(Clone, Copy, Debug, PartialEq, Eq)]
pub enum Class {
    // any byte but a newline
    Line,
    // any byte but #, which starts a comment
    Plain,
    // a space, a tab or a carriage return
    Blank,
    // any byte but a blank
    Word,
    // 0 to 9
    Digit,
}

impl Class {
    // Whether a byte is of the class.
    pub fn contains(self, byte: u8) -> bool
        ensures { result ≡ belongs self byte }
    {
        match self {
            Class::Line => byte != b'\n',
            Class::Plain => byte != b'#',
            Class::Blank => is_blank(byte),
            Class::Word => !is_blank(byte),
            Class::Digit => byte.is_ascii_digit(),
        }
    }
}

fn is_blank(byte: u8) -> bool
    ensures { result ≡ is_blank byte }
{
    matches!(byte, b' ' | b'\t' | b'\r')
}

// Where a word stands: its start, and the place after it.
#[derive(Clone, Copy, Debug, PartialEq, Eq)]
pub struct Word {
    pub start: usize,
    pub end: usize,
}

// Why a word says no number.
#[derive(Clone, Copy, Debug, PartialEq, Eq)]
pub enum NumeralError {
    // the number is above the most that is allowed
    TooLarge,
    // it has a byte that is no digit
    NotDigits,
}

// The place of the first byte from `at` on that is not of the class; where there is none, the end of s.
pub fn span_end(s: &[u8], at: usize, class: Class) -> usize
    ensures { result ≡ at + length (span class (drop at s.now)) }
{
    match s.get(at..) {
        Some(rest) => at + span_length(rest, class),
        None => at,
    }
}

// How many bytes at the start of s are of the class.
fn span_length(s: &[u8], class: Class) -> usize
    ensures { result ≡ length (span class s.now) }
{
    s.iter().take_while(|byte| class.contains(**byte)).count()
}

// The first word from the place `at` of s on.
pub fn next_word(s: &[u8], at: usize) -> Option<Word>
    ensures { NextWord s.now at result }
{
    let start = span_end(s, at, Class::Blank);
    if s.len() <= start {
        return None;
    }
    let end = span_end(s, start, Class::Word);
    Some(Word { start, end })
}

// Whether two words have the same bytes.
pub fn is_same(a: &[u8], b: &[u8]) -> bool
    ensures { result ≡ same a.now b.now }
{
    a == b
}

// The number that a word says, at most `most`.
pub fn read_numeral(word: &[u8], most: u32) -> Result<u32, NumeralError>
    ensures { result ≡ numeral_of most word.now }
{
    if !is_digits(word) {
        return Err(NumeralError::NotDigits);
    }
    let bound = u64::from(most);
    let mut value: u64 = 0;
    for &byte in word {
        value = 10 * value + u64::from(byte - b'0');
        if bound < value {
            return Err(NumeralError::TooLarge);
        }
    }
    Ok(value as u32)
}

// Whether a word has only digits.
fn is_digits(word: &[u8]) -> bool
    ensures { result ≡ all_digits word.now }
{
    word.iter().all(|byte| byte.is_ascii_digit())
}
