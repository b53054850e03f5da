// The steps of a run on lent arrays, one after the other: 9 to 11 are judged at every step, where 14, 7 and 8 let the first pass.
#![tactic(auto)]

ghost use Rattle.std.specs.Prelude.{◌≡◌, true, ◌≤◌};
ghost use Rattle.validity.specs.Validity.{valid};
ghost use Rattle.step_drawdowns.specs.Drawdowns.{Stands};
ghost use Rattle.step_places.specs.Terms.{terms_of};
ghost use Rattle.step_rules.specs.Ready.{Ready, course_of};
ghost use Rattle.step_rules.specs.Steps.{steps_of};
ghost use Rattle.step_run.specs.Ran.{ran_of};

use limits::{CELL_PLACES, COLUMN_PLACES};
use record::Record;
use refusals::Refusal;
use step_judged::Course;
use step_losses::Faces;
use step_sweep::{Terms, Workspace};

// From so many steps on it pays to work out the multipliers.
const PAYS: u64 = 8;

// What became of several steps, where they came to, and how many were taken.
#[derive(Clone, Copy)]
pub struct Ran {
    pub outcome: Result<(), Refusal>,
    pub course: Course,
    pub losses: [i64; CELL_PLACES], // V of the cells, nl
    pub taken: u64,
}

// How many slots have their multipliers worked out: none where there are few steps.
fn slots_built(steps: u64, layers: usize) -> usize
    requires { layers ≤ 20 }
    ensures { result ≤ 1000 }
{
    if steps < PAYS {
        0
    } else {
        COLUMN_PLACES * layers
    }
}

// The terms of a record's run.
pub fn terms_of(record: Record, rate: u64, dt: u64) -> Terms
    ensures value { result ≡ terms_of «record» result.well_multiplier rate dt }
    ensures stands { Stands result.well_multiplier result.well_storage }
{
    Terms {
        layers: record.site.layers as usize,
        columns: record.site.columns as usize,
        thickness: record.site.thickness[0],
        kv1: record.site.kv[0],
        b2: record.site.thickness[1],
        kv2: record.site.kv[1],
        intake: record.site.intake,
        well_storage: record.well_storage,
        well_multiplier: step_drawdowns::multiplier(record.well_storage),
        rate,
        dt,
    }
}

// Where a record's run has come to.
fn course_of(rec: &Record) -> Course
    requires { valid rec.now ≡ true }
    ensures { result ≡ course_of rec.now }
{
    Course {
        well_loss: rec.well_loss,
        well_depth: step_drawdowns::drawdown(rec.well_loss, rec.well_storage),
        pumped: rec.pumped,
        inflow: rec.inflow,
        time: rec.time,
        mark: rec.mark,
    }
}

// The steps, one after the other, where 14, 7 and 8 let the first pass: a refusal ends them.
pub fn run(record: Record, rate: u64, dt: u64, steps: u64) -> Ran
    requires { Ready «record» rate dt }
    ensures { result ≡ ran_of (steps_of rate dt 0 steps «record») }
{
    let terms = terms_of(record, rate, dt);
    let areas = coefficient_cells::areas_of(record.site);
    let multipliers = step_drawdowns::multipliers(
        &record.storages,
        slots_built(steps, terms.layers),
    );
    let mut work = Workspace {
        faces: Faces {
            depths: [0; CELL_PLACES],
            conductances: record.horizontal,
            down: [0; CELL_PLACES],
        },
        before: [0; CELL_PLACES],
    };
    let mut losses = record.losses;
    let mut course = course_of(&record);
    for taken in 0..steps {
        let advanced = step_judged::advance(
            terms,
            course,
            &record,
            &areas,
            &multipliers,
            &mut losses,
            &mut work,
        );
        course = advanced.course;
        if let Err(refusal) = advanced.outcome {
            return Ran {
                outcome: Err(refusal),
                course,
                losses,
                taken,
            };
        }
    }
    Ran {
        outcome: Ok(()),
        course,
        losses,
        taken: steps,
    }
}
