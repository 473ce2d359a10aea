// Seven-bit numbers: groups of seven bits, lowest group first, the high bit (128) set on every byte but the last.
#![tactic(auto)]

ghost use Rattle.std.specs.Prelude.{◌≡◌, length};
ghost use Rattle.numbers.specs.Number.{number_of, encode};
ghost use Rattle.output.specs.Wrote.{fitted};
ghost use Rattle.output.specs.Puts.{Puts};

use output::Output;

#[derive(Clone, Copy, Debug, PartialEq, Eq)]
pub struct Number {
    pub value: u32,
    // the count of its bytes
    pub size: usize,
}

// The greatest fifth byte of a number below 2^32.
const FIFTH_MOST: u32 = 15;

// The number at the start of s: none where it is cut off, not in the shortest form, or not below 2^32.
pub fn read_number(s: &[u8]) -> Option<Number>
    ensures { result ≡ number_of s.now }
{
    // most numbers of a log have one byte
    let (&first, rest) = s.split_first()?;
    let first = u32::from(first);
    let is_whole = first < 128;
    if is_whole {
        return Some(Number {
            value: first,
            size: 1,
        });
    }
    let mut value = first - 128;
    let mut weight = 128;
    // i is 0 at the second byte
    for (i, &byte) in rest.iter().enumerate() {
        let byte = u32::from(byte);
        if i == 3 && FIFTH_MOST < byte {
            return None;
        }
        if byte < 128 {
            // in the shortest form a last byte of 0 is the only byte
            let is_empty = byte == 0;
            if is_empty {
                return None;
            }
            return Some(Number {
                value: value + weight * byte,
                size: i + 2,
            });
        }
        value += weight * (byte - 128);
        weight *= 128;
    }
    None
}

// How many bytes v has.
pub fn number_length(v: u32) -> usize
    ensures { result ≡ length (encode v) }
{
    // a byte for each seven bits, as they are written
    let mut n = v;
    let mut count = 1;
    while 128 <= n {
        n /= 128;
        count += 1;
    }
    count
}

// Writes v. Where it does not fit, nothing is written.
pub fn write_number(out: &mut Output, v: u32)
    ensures { Puts out.old (fitted out.old.buffer.now out.old.end (encode v)) out.new }
{
    // no room behind the end, and a number has at least one byte
    let room = out.buffer.len().saturating_sub(out.end);
    let is_short = room < number_length(v);
    if is_short {
        return;
    }
    let mut n = v;
    while 128 <= n {
        out.put_byte((n % 128 + 128) as u8);
        n /= 128;
    }
    out.put_byte(n as u8);
}
