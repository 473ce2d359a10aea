// What the program writes for a log.
ghost use Rattle.std.specs.Prelude.{◌+◌, ◌≤◌};
ghost use Rattle.output.specs.Puts.{Room, Puts};
ghost use Rattle.output.specs.Fill.{Responded};
ghost use Rattle.log_printer.specs.Response.{refusal_line, response_for};

use crate::PrintError;
use log_text::Why;
use output::Output;

// No text that is printed has more bytes.
pub const LONGEST_PRINTED: usize = 258111;

// Writes the text of a log, or one line that says why there is none, at the start of buf, and answers the place after it. Where buf has fewer than
// LONGEST_PRINTED bytes, nothing is written. It is like log_parser's.
pub fn respond(log: &[u8], buf: &mut [u8]) -> usize
    ensures { Responded (response_for log.now buf.old) buf.old buf.new result }
{
    if buf.len() < LONGEST_PRINTED {
        return 0;
    }
    match crate::print_log(log, buf) {
        Ok(length) => length,
        Err(error) => {
            let mut out = Output::new(buf);
            refusal_line(&mut out, error);
            out.end
        }
    }
}

// Writes the line of a refusal. LONGEST_PRINTED bytes hold any text, so NoRoom has none.
fn refusal_line(out: &mut Output, error: PrintError)
    requires { Room 64 out.old }
    ensures { Puts out.old (refusal_line (Err error)) out.new × (out.new.end ≤ out.old.end + 64) }
{
    match error {
        PrintError::Bad(place) => transcript::bad_line(out, place),
        PrintError::TooMany => log_text::put_why(out, Why::TooManyRecords),
        PrintError::TooLong => transcript::too_long_line(out),
        PrintError::NoRoom => {}
    }
}
