// The listing of a scenario text, piece by piece: each piece is a line, and the record from which the next entry runs.
#![tactic(auto)]

ghost use Rattle.std.specs.Prelude.{◌≡◌, ◌≤◌, length, IfSome};
ghost use Rattle.refusals.specs.Refusals.{refusal_number};
ghost use Rattle.listing_lines.specs.Lines.{HoldsLine};
ghost use Rattle.listing.specs.Listing.{header_line, scenario_line, opening_of, next_of};

use limits::ENTRY_LIMIT;
use listing_entry::line;
use listing_lines::{Line, empty, with_number, with_word};
use listing_runs::run_entry;
use record::Record;
use refusals::Refusal;

fn header_line() -> Line
    ensures { HoldsLine header_line result }
{
    with_word(empty(), b"entry us well pumped wellloss cellloss inflow\n")
}

fn scenario_line(refusal: Refusal) -> Line
    ensures { HoldsLine (scenario_line (refusal_number refusal)) result }
{
    let word = with_word(empty(), b"scenario ");
    with_number(word, refusal.number(), b'\n')
}

// The first line, and the record from which the entries of an accepted text run.
#[derive(Clone, Copy)]
pub struct Opened {
    pub line: Line,
    pub start: Option<Record>,
}

// A line of the listing, and the record from which the next entry runs.
#[derive(Clone, Copy)]
pub struct Piece {
    pub line: Line,
    pub record: Record,
}

// The header, or the refusal of the text, after which nothing follows.
pub fn opening(text: &[u8]) -> Opened
    ensures { (result ≡ opening_of text.now) × (result.line.length ≤ length result.line.bytes) }
{
    let answer = scenario::start(text);
    match answer.outcome {
        Ok(()) => Opened {
            line: header_line(),
            start: Some(answer.record),
        },
        Err(refusal) => Opened {
            line: scenario_line(refusal),
            start: None,
        },
    }
}

// The line of the entry after the first `done`, run from the record that they left; None after the last.
pub fn next_entry(text: &[u8], record: Record, done: u64) -> Option<Piece>
    ensures { (result ≡ next_of text.now «record» done) × IfSome result (λ p. p.line.length ≤ length p.line.bytes) }
{
    if ENTRY_LIMIT <= done {
        return None;
    }
    let number = done + 1;
    let Ok(entry) = scenario::pumping_entry(text, number) else {
        return None;
    };
    let ran = run_entry(record, entry.rate, entry.length, entry.repeats);
    Some(Piece {
        line: line(number, ran),
        record: ran.record,
    })
}
