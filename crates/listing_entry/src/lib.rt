// The line of a pumping entry.
#![tactic(auto)]

ghost use Rattle.std.specs.Prelude.{◌≡◌, ℕ, MatchResult};
ghost use Rattle.refusals.specs.Refusals.{refusal_number};
ghost use Rattle.listing_lines.specs.Lines.{HoldsLine};
ghost use Rattle.listing_entry.specs.EntryLine.{refused_line, figures_line, entry_line};
ghost use Rattle.listing_entry.specs.Figures.{Figures};

use listing_lines::{Line, empty, with_figure, with_number, with_word};
use readings::{Place, Totals};
use record::Answer;
use refusals::Refusal;

fn refused_line(number: u64, refusal: Refusal) -> Line
    ensures { HoldsLine (refused_line number (refusal_number refusal)) result }
{
    let refused = refusal.number();
    let word = with_word(empty(), b"refused ");
    let entry = with_number(word, number, b' ');
    with_number(entry, refused, b'\n')
}

fn figures_line(number: u64, time: u64, well: i64, totals: Totals) -> Line
    requires { Figures well totals }
    ensures { HoldsLine (figures_line number time well totals) result }
{
    let entry = with_number(empty(), number, b' ');
    let us = with_number(entry, time, b' ');
    let depth = with_figure(us, well, b' ');
    let pumped = with_number(depth, totals.pumped, b' ');
    let well_loss = with_figure(pumped, totals.well_loss, b' ');
    let cell_loss = with_figure(well_loss, totals.cell_loss, b' ');
    with_figure(cell_loss, totals.inflow, b'\n')
}

// The well's drawdown and the water budget of the record that an entry's steps left. The refusal of a step, or else of a reading, stands in their place.
fn figures(ran: Answer) -> Result<(i64, Totals), Refusal>
    ensures { MatchResult result
        (λ x. Figures x.0 x.1 × ((n : ℕ) → entry_line n ran ≡ figures_line n ran.«record».time x.0 x.1))
        (λ k. (n : ℕ) → entry_line n ran ≡ refused_line n (refusal_number k)) }
{
    ran.outcome?;
    let well = read_drawdown::drawdown(ran.record, Place::Well)?;
    let totals = read_budget::budget(ran.record)?;
    Ok((well, totals))
}

// The line of an entry after its run: its figures, or its refusal.
pub fn line(number: u64, ran: Answer) -> Line
    ensures { HoldsLine (entry_line number ran) result }
{
    match figures(ran) {
        Ok((well, totals)) => figures_line(number, ran.record.time, well, totals),
        Err(refusal) => refused_line(number, refusal),
    }
}
