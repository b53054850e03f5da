// The run of a pumping entry.
#![tactic(auto)]

ghost use Rattle.std.specs.Prelude.{◌≡◌};
ghost use Rattle.listing_runs.specs.Runs.{run_of};

use record::{Answer, Record};

// The steps of an entry, one after the other: a refusal ends it, and the steps before it stay. 14 is judged first, also where no step is asked.
pub fn run_entry(record: Record, rate: u64, length: u64, repeats: u64) -> Answer
    ensures { result ≡ run_of «record» rate length repeats }
{
    let repeated = step::repeat(record, rate, length, repeats);
    Answer {
        outcome: repeated.outcome,
        record: repeated.record,
    }
}
