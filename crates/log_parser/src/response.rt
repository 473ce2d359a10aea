// What the program writes for a text.
ghost use Rattle.std.specs.Prelude.{◌+◌, ◌≤◌};
ghost use Rattle.output.specs.Puts.{Room, Puts};
ghost use Rattle.output.specs.Fill.{Responded};
ghost use Rattle.log_parser.specs.Response.{refused_line, refusal_line, response_for};

use crate::ParseError;
use log_text::{LONGEST_LOG, Why};
use output::Output;

// Writes the log that a text says, or one line that says why there is none, at the start of buf, and answers the place after it. Where buf has fewer than
// LONGEST_LOG bytes, nothing is written. log_printer's is like it: over both it would take the bound, the writing and the line as parameters.
pub fn respond(text: &[u8], buf: &mut [u8]) -> usize
    ensures { Responded (response_for text.now buf.old) buf.old buf.new result }
{
    if buf.len() < LONGEST_LOG {
        return 0;
    }
    match crate::parse_text(text, buf) {
        Ok(length) => length,
        Err(error) => {
            let mut out = Output::new(buf);
            refusal_line(&mut out, error);
            out.end
        }
    }
}

// Writes the line of a refusal. LONGEST_LOG bytes hold any log, so NoRoom has none.
fn refusal_line(out: &mut Output, error: ParseError)
    requires { Room 64 out.old }
    ensures { Puts out.old (refusal_line (Err error)) out.new × (out.new.end ≤ out.old.end + 64) }
{
    match error {
        ParseError::Refused(number, why) => refused_line(out, number, why),
        ParseError::TooLong => out.put(b"text too long\n"),
        ParseError::NoRoom => {}
    }
}

// Writes the line `line K: why`.
fn refused_line(out: &mut Output, number: usize, why: Why)
    requires { Room 64 out.old }
    ensures { Puts out.old (refused_line number why) out.new × (out.new.end ≤ out.old.end + 64) }
{
    text::put_around(out, b"line ", number, b": ");
    log_text::put_why(out, why);
}
