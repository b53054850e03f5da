// Steps on a record: many equal ones, and one. 14, 7 and 8 are judged once, 9 to 11 at every step, and the record is rebuilt after the last.
#![tactic(auto)]

ghost use Rattle.std.specs.Prelude.{◌≡◌};
ghost use Rattle.step_rules.specs.Step.{step_of};
ghost use Rattle.step.specs.Repeat.{repeat_of};

use record::{Answer, Record, Repeated};
use refusals::Refusal;

// The record handed in: no step is taken.
fn unmoved(outcome: Result<(), Refusal>, rec: Record) -> Repeated
    ensures { result ≡ (record { outcome = outcome; «record» = rec; taken = 0 }) }
{
    Repeated {
        outcome,
        record: rec,
        taken: 0,
    }
}

// Any number of steps of dt µs at a rate in ml/s, one after the other. A refused step ends them, and the steps before it stay.
// 14 is judged also where no step is asked.
pub fn repeat(record: Record, rate: u64, dt: u64, steps: u64) -> Repeated
    ensures { result ≡ repeat_of «record» rate dt steps }
{
    if !validity::valid(record) {
        return unmoved(Err(Refusal::Record), record);
    }
    if steps == 0 {
        return unmoved(Ok(()), record);
    }
    if step_conditions::rate_or_length_out(rate, dt) {
        return unmoved(Err(Refusal::RateOrLength), record);
    }
    if !step_stability::stable(record, dt) {
        return unmoved(Err(Refusal::Unstable), record);
    }
    let ran = step_run::run(record, rate, dt, steps);
    // no plainer as `losses: ran.losses`: the check takes no array field straight into a literal
    let losses = ran.losses;
    Repeated {
        outcome: ran.outcome,
        record: Record {
            losses,
            well_loss: ran.course.well_loss,
            pumped: ran.course.pumped,
            inflow: ran.course.inflow,
            time: ran.course.time,
            mark: ran.course.mark,
            ..record
        },
        taken: ran.taken,
    }
}

// A step of dt µs at a rate in ml/s. A refused step gives its refusal and the record handed in.
pub fn step(record: Record, rate: u64, dt: u64) -> Answer
    ensures { result ≡ step_of «record» rate dt }
{
    let repeated = repeat(record, rate, dt, 1);
    Answer {
        outcome: repeated.outcome,
        record: repeated.record,
    }
}
