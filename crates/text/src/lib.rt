// Text in lent buffers: decimal numbers are written, lines, words and numbers are found.
#![tactic(auto)]

ghost use Rattle.std.specs.Prelude.{◌+◌, ◌≤◌, length};
ghost use Rattle.output.specs.Puts.{Room, Puts};
ghost use Rattle.output.specs.Wrote.{Wrote};
ghost use Rattle.text.specs.Decimal.{decimal, around};

use output::Output;

pub mod words;

// Writes a number in decimal digits. By hand: `write!` tells its bytes only of a String, which needs an allocator.
pub fn put_decimal(out: &mut Output, n: usize)
    requires { Room (length (decimal n)) out.old }
    ensures { Puts out.old (decimal n) out.new }
{
    out.end = put_digits(out.buffer, out.end, n);
}

// Writes the digits of a number from the place `at` on, and answers the place behind them, by value: so it stays in a register.
fn put_digits(buffer: &mut [u8], at: usize, n: usize) -> usize
    requires { at + length (decimal n) ≤ length buffer.old }
    ensures { Wrote buffer.old at (decimal n) buffer.new result }
{
    if n < 10 {
        buffer[at] = b'0' + n as u8;
        return at + 1;
    }
    let end = put_digits(buffer, at, n / 10);
    buffer[end] = b'0' + (n % 10) as u8;
    end + 1
}

// Writes a number between two texts. A usize has at most 20 digits.
pub fn put_around(out: &mut Output, before: &[u8], n: usize, behind: &[u8])
    requires { Room (length before.now + 20 + length behind.now) out.old }
    ensures { Puts out.old (around before.now n behind.now) out.new }
{
    out.put(before);
    put_decimal(out, n);
    out.put(behind);
}
