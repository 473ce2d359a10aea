// The lines that a program writes for a log of calls: a function for each, as there is a definition for each.
#![tactic(auto)]

ghost use Rattle.output.specs.Puts.{Room, Puts};
ghost use Rattle.transcript.specs.Lines.{signed, pool_line, answer_line, woken_line, end_line, bad_line, refused_line, too_long_line, longest_answer, longest_line};

use output::Output;

// The line `pool N`.
pub fn pool_line(out: &mut Output, n: usize)
    requires { Room longest_line out.old }
    ensures { Puts out.old (pool_line n) out.new }
{
    text::put_around(out, b"pool ", n, b"\n");
}

// The line `code offset` of an answer.
pub fn answer_line(out: &mut Output, code: i32, offset: usize)
    requires { Room longest_answer out.old }
    ensures { Puts out.old (answer_line code offset) out.new }
{
    put_signed(out, code);
    text::put_around(out, b" ", offset, b"\n");
}

// The line `w task code offset` of a woken task.
pub fn woken_line(out: &mut Output, task: u32, code: i32, offset: usize)
    requires { Room longest_line out.old }
    ensures { Puts out.old (woken_line task code offset) out.new }
{
    text::put_around(out, b"w ", task as usize, b" ");
    answer_line(out, code, offset);
}

// The line `end K records`.
pub fn end_line(out: &mut Output, count: usize)
    requires { Room longest_line out.old }
    ensures { Puts out.old (end_line count) out.new }
{
    text::put_around(out, b"end ", count, b" records\n");
}

// The line `bad log at P`.
pub fn bad_line(out: &mut Output, place: usize)
    requires { Room longest_line out.old }
    ensures { Puts out.old (bad_line place) out.new }
{
    text::put_around(out, b"bad log at ", place, b"\n");
}

// The line `pool refused -17`.
pub fn refused_line(out: &mut Output)
    requires { Room longest_line out.old }
    ensures { Puts out.old refused_line out.new }
{
    out.put(b"pool refused -17\n");
}

// The line `log too long`.
pub fn too_long_line(out: &mut Output)
    requires { Room longest_line out.old }
    ensures { Puts out.old too_long_line out.new }
{
    out.put(b"log too long\n");
}

// An integer, with a minus sign where it is negative, by hand as `text::put_decimal`. An i32 has at most 10 digits.
fn put_signed(out: &mut Output, value: i32)
    requires { Room 11 out.old }
    ensures { Puts out.old (signed value) out.new }
{
    let digits = value.unsigned_abs() as usize;
    if value < 0 {
        out.put_byte(b'-');
        text::put_decimal(out, digits);
        return;
    }
    text::put_decimal(out, digits);
}
