// A pump controller's choice (document 02, N13): of a list of rates the highest at which so many steps in a row are all accepted. It stands above the model
// and makes calls of `step::repeat`; the record handed in is handed back.
// Rates are in ml/s, lengths of steps in µs.
#![tactic(auto)]

ghost use Rattle.std.specs.Prelude.{◌≡◌, true, List, ℕ, find, reverse};
ghost use Rattle.record.specs.declared.Record.{Record};
ghost use Rattle.validity.specs.Validity.{valid};
ghost use Rattle.step.specs.Repeat.{repeat_of};
ghost use Rattle.control_choice.specs.Choice.{is_taken, all_accepted, rising, list_holds, choice_refusal, passing, best_of, choice_of, chosen_of};
ghost use Rattle.control_choice.specs.Chooses.{Chooses};

use limits::{CHOICE_RATE_LIMIT, CHOICE_STEP_LIMIT};
use record::Record;
use refusals::Refusal;

// The choice, and the record that was handed in. What is chosen is the highest rate at which all steps are accepted, ml/s, or None where each rate meets a
// refused step; it is refused with 14 for the record, and with 20 for the list or the number of steps.
#[derive(Clone, Copy)]
pub struct Chosen {
    pub choice: Result<Option<u64>, Refusal>,
    pub record: Record,
}

// Whether so many steps in a row are all taken. With no step 14 alone is judged.
fn all_taken(record: Record, rate: u64, dt: u64, steps: u64) -> bool
    ensures { result ≡ is_taken (repeat_of «record» rate dt steps).outcome }
{
    step::repeat(record, rate, dt, steps).outcome.is_ok()
}

// Whether each rate is below the next.
fn is_rising(rates: &[u64]) -> bool
    ensures { result ≡ rising rates.now }
{
    rates.is_sorted_by(|a, b| a < b)
}

// What 20 asks of the list and of the number of steps. A list that is too long is not looked at further.
#[tactic(auto, unfolding(crate::specs::Choice::list_holds))]
fn list_holds(rates: &[u64], steps: u64) -> bool
    ensures { result ≡ list_holds rates.now steps }
{
    1 <= rates.len()
        && rates.len() <= CHOICE_RATE_LIMIT
        && is_rising(rates)
        && 1 <= steps
        && steps <= CHOICE_STEP_LIMIT
}

// The first rate from the end of the list at which all steps are taken.
fn last_taken(record: Record, rates: &[u64], dt: u64, steps: u64) -> Option<u64>
    ensures { result ≡ find (λ rate. is_taken (repeat_of «record» rate dt steps).outcome) (reverse rates.now) }
{
    rates
        .iter()
        .rev()
        .copied()
        .find(|rate| all_taken(record, *rate, dt, steps))
}

// The highest rate at which all steps are taken, tried from the highest down: nothing says that a lower rate is safer.
fn highest(record: Record, rates: &[u64], dt: u64, steps: u64) -> Option<u64>
    requires { (valid «record» ≡ true) × (rising rates.now ≡ true) }
    ensures { result ≡ best_of (passing (λ rate. all_accepted rate dt steps «record») rates.now) }
{
    last_taken(record, rates, dt, steps)
}

// 14, then 20, then the rates.
fn judged(record: Record, rates: &[u64], dt: u64, steps: u64) -> Result<Option<u64>, Refusal>
    ensures { result ≡ choice_of (choice_refusal «record» rates.now steps) (passing (λ rate. all_accepted rate dt steps «record») rates.now) }
{
    if !all_taken(record, 0, 0, 0) {
        return Err(Refusal::Record);
    }
    if !list_holds(rates, steps) {
        return Err(Refusal::Choice);
    }
    Ok(highest(record, rates, dt, steps))
}

// The highest of the rates at which so many steps of dt µs, one after the other from the record, are all accepted.
pub fn choose(record: Record, rates: &[u64], dt: u64, steps: u64) -> Chosen
    ensures { result ≡ chosen_of «record» rates.now dt steps }
{
    let choice = judged(record, rates, dt, steps);
    Chosen { choice, record }
}

// A theorem, with nothing to run: whatever the record, the rates, the length and the number of steps, the choice is the highest rate at which all steps are
// accepted, in what `step` answers one after the other, or none, or 14 or 20 where these are due.
pub fn highest_accepted()
    ensures { (rec : Record) (rates : List ℕ) (dt n : ℕ) → Chooses rec rates dt n }
{}
