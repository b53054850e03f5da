// The scenario text: the record at the start of a run, and the pumping entries.
#![tactic(auto)]

ghost use Rattle.std.specs.Prelude.{◌≡◌, true, List, ℕ, ◌-◌, MatchResult, Err};
ghost use Rattle.refusals.specs.Refusals.{given, outcome_of};
ghost use Rattle.laws.specs.Lists.{first};
ghost use Rattle.site.specs.Site.{counts_hold};
ghost use Rattle.sections.specs.Reading.{Reads};
ghost use Rattle.sections.specs.Sections.{entry_at};
ghost use Rattle.coefficients.specs.Coefficients.{start_record};
ghost use Rattle.scenario.specs.Accepts.{Accepts};
ghost use Rattle.scenario.specs.Scenario.{number_tests, text_refusal, start_of, entry_tests, entry_of};

use coefficients::coefficients_of;
use limits::NUMBER_PLACES;
use record::{Answer, Record};
use refusals::Refusal;
use sections::{Entry, Layout};
use site::Site;

// The refusals 3 to 6, and the record at the start where there is none.
fn made(site: Site, repeats: bool) -> Result<Record, Refusal>
    requires { counts_hold site ≡ true }
    ensures { result ≡ given (first (number_tests site repeats)) (start_record site) }
{
    if !site::numbers_hold(site) || !repeats {
        return Err(Refusal::Numbers);
    }
    if !site::radii_hold(site) {
        return Err(Refusal::Radii);
    }
    if !site::screen_holds(site) {
        return Err(Refusal::Screen);
    }
    coefficients_of(site).ok_or(Refusal::Coefficients)
}

// An accepted text: the record at the start, its numbers and where its sections begin.
#[derive(Clone, Copy)]
struct Accepted {
    record: Record,
    layout: Layout,
    values: [u64; NUMBER_PLACES],
}

// A text judged whole.
fn judge(text: &[u8]) -> Result<Accepted, Refusal>
    ensures { MatchResult result (λ a. Accepts text.now a) (λ refused. outcome_of (text_refusal text.now) ≡ Err refused) }
{
    let read = text::read(text).ok_or(Refusal::Lines)?;
    let layout = match sections::layout_of(read.count, &read.values) {
        Ok(layout) => layout,
        Err(refused) => return Err(refused),
    };
    let repeats = sections::repeats_hold(&read.values, layout);
    let record = made(sections::site_of(&read.values, layout), repeats)?;
    Ok(Accepted {
        record,
        layout,
        values: read.values,
    })
}

// The record at the start of a run, for an accepted scenario text; the all-zero record for a refused one.
pub fn start(text: &[u8]) -> Answer
    ensures { result ≡ start_of text.now }
{
    match judge(text) {
        Ok(accepted) => Answer {
            outcome: Ok(()),
            record: accepted.record,
        },
        Err(refused) => Answer {
            outcome: Err(refused),
            record: record::all_zero(),
        },
    }
}

// A pumping entry of an accepted text, by its number.
fn found(values: &[u64; NUMBER_PLACES], layout: Layout, number: u64) -> Result<Entry, Refusal>
    requires { (ns : List ℕ) × Reads values.now layout ns }
    ensures { (ns : List ℕ) → Reads values.now layout ns → result ≡ given (first (entry_tests ns number)) (entry_at ns (number - 1)) }
{
    if number == 0 || sections::entries(values, layout) < number {
        return Err(Refusal::NoSuch);
    }
    Ok(sections::entry_at(values, layout, (number - 1) as usize))
}

// A pumping entry of a scenario text, by its number, which counts from 1.
pub fn pumping_entry(text: &[u8], number: u64) -> Result<Entry, Refusal>
    ensures { result ≡ entry_of text.now number }
{
    match judge(text) {
        Ok(accepted) => found(&accepted.values, accepted.layout, number),
        Err(refused) => Err(refused),
    }
}
