// Prints the listing of a scenario text, each entry's line as the entry ends.
#![tactic(auto)]

ghost use Rattle.std.specs.Prelude.{OnOk, ◌≤◌, length};
ghost use Rattle.std.specs.Io.KnownBytes.{Appends};
ghost use Rattle.listing.specs.Listing.{bytes_of, listing_of};

use limits::ENTRY_LIMIT;
use listing_lines::Line;
use std::io::{self, Write};

// Writes the bytes of a line.
fn print<W: Write>(out: &mut W, line: Line) -> io::Result<()>
    requires { line.length ≤ length line.bytes }
    ensures { OnOk result (Appends (W.contents out.old) (W.contents out.new) (bytes_of line)) }
{
    out.write_all(&line.bytes[..line.length])
}

// The header and a line an entry, or the refusal of the text; Ok where all of it could be written, and then it is the text's listing.
pub fn print_listing<W: Write>(out: &mut W, text: &[u8]) -> io::Result<()>
    ensures { OnOk result (Appends (W.contents out.old) (W.contents out.new) (listing_of text.now)) }
{
    let opening = listing::opening(text);
    print(out, opening.line)?;
    let Some(start) = opening.start else {
        return Ok(());
    };
    let mut record = start;
    for done in 0..ENTRY_LIMIT {
        let Some(piece) = listing::next_entry(text, record, done) else {
            return Ok(());
        };
        print(out, piece.line)?;
        record = piece.record;
    }
    Ok(())
}
