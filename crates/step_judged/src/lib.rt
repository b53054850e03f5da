// One step of a run on lent arrays, where 14, 7 and 8 let it pass: 9 to 11 are judged, and a step that is taken moves the losses and the course.
#![tactic(auto)]

ghost use Rattle.std.specs.Prelude.{◌≡◌, ◌+◌, ◌*◌, ◌-◌, ◌≤◌, ◌<◌, pos, ◌≤ℤ◌, get_or};
ghost use Rattle.laws.specs.Fill.{fill};
ghost use Rattle.laws.specs.Lists.{larger};
ghost use Rattle.limits.specs.Limits.{drawdown_limit};
ghost use Rattle.refusals.specs.Refusals.{outcome_of};
ghost use Rattle.step_conditions.specs.Conditions.{Filled};
ghost use Rattle.step_drawdowns.specs.Drawdowns.{Stands, Multiplied};
ghost use Rattle.step_sweep.specs.Worked.{lent, Scratch};
ghost use Rattle.step_judged.specs.Course.{too_deep, Advancing, Advances};

use limits::{CELL_PLACES, COLUMN_PLACES};
use record::Record;
use refusals::Refusal;
use step_sweep::{Terms, Workspace};

// Where a run has come to, beside the losses of its cells.
#[derive(Clone, Copy)]
pub struct Course {
    pub well_loss: i64, // V of the well, nl
    pub well_depth: u64, // D of the well, µm
    pub pumped: u64, // pumped total, nl
    pub inflow: i64, // inflow total, nl
    pub time: u64, // µs
    pub mark: i64, // the record's mark, µm
}

// What became of one step, and the course after it; a refused step leaves the course as it was.
#[derive(Clone, Copy)]
pub struct Advanced {
    pub outcome: Result<(), Refusal>,
    pub course: Course,
}

// The losses as they were, in the slots before the last layer's last column.
fn restore(
    before: &[i64; CELL_PLACES],
    layers: usize,
    columns: usize,
    losses: &mut [i64; CELL_PLACES],
)
    requires { (1 ≤ layers) × (layers ≤ 20) × (1 ≤ columns) × (columns ≤ 50) }
    ensures { losses.new ≡ fill (50 * (layers - 1) + (columns - 1)) (λ k. get_or before.now k (pos 0)) losses.old }
{
    let n = COLUMN_PLACES * (layers - 1) + (columns - 1);
    for k in 0..n {
        losses[k] = before[k];
    }
}

// What 10 and 11 say of a step: `well_loss` and `losses` are those after it.
fn too_deep(
    terms: Terms,
    well_loss: i64,
    storages: &[u64; CELL_PLACES],
    losses: &[i64; CELL_PLACES],
) -> Result<(), Refusal>
    requires intake_bound { (1000 * terms.intake ≤ drawdown_limit) × (0 < terms.well_storage) × (pos 0 ≤ℤ well_loss) }
    requires columns_bound { (terms.columns ≤ 50) × (1000 * terms.thickness ≤ drawdown_limit) × Filled (terms.columns - 1) storages.now losses.now }
    ensures { result ≡ outcome_of (too_deep terms well_loss storages.now losses.now) }
{
    if step_conditions::well_too_deep(terms.intake, terms.well_storage, well_loss) {
        return Err(Refusal::PastIntake);
    }
    if step_conditions::table_too_deep(terms.columns, terms.thickness, storages, losses) {
        return Err(Refusal::PastBottom);
    }
    Ok(())
}

// The mark after a step that leaves the well at this D, both µm.
#[tactic(auto, using(crate::proofs::Laws::marks))]
fn raised(mark: i64, depth: u64) -> i64
    requires { depth ≤ drawdown_limit }
    ensures { result ≡ larger mark (pos depth) }
{
    mark.max(depth as i64)
}

// One step. A refused step leaves losses and course as they were.
pub fn advance(
    terms: Terms,
    course: Course,
    rec: &Record,
    areas: &[u64; COLUMN_PLACES],
    multipliers: &[u64; CELL_PLACES],
    losses: &mut [i64; CELL_PLACES],
    work: &mut Workspace,
) -> Advanced
    requires advancing { Advancing (lent terms course.well_loss course.inflow areas.now rec.now.screen rec.now.horizontal rec.now.vertical rec.now.storages losses.old) terms.intake course }
    requires multiplied { Multiplied multipliers.now rec.now.storages × Stands terms.well_multiplier terms.well_storage }
    requires scratch { Scratch terms.layers terms.columns rec.now.horizontal work.old.faces.depths work.old.faces.conductances work.old.faces.down work.old.before }
    ensures { Advances (lent terms course.well_loss course.inflow areas.now rec.now.screen rec.now.horizontal rec.now.vertical rec.now.storages losses.old) terms.intake course result losses.new work.new.faces.depths work.new.faces.conductances work.new.faces.down work.new.before }
{
    if step_conditions::totals_pass(course.pumped, course.time, terms.rate, terms.dt) {
        return Advanced {
            outcome: Err(Refusal::Totals),
            course,
        };
    }
    let swept = step_sweep::work_step(
        terms,
        course.well_loss,
        course.well_depth,
        course.inflow,
        rec,
        areas,
        multipliers,
        losses,
        work,
    );
    if let Err(refusal) = too_deep(terms, swept.well_loss, &rec.storages, losses) {
        restore(&work.before, terms.layers, terms.columns, losses);
        return Advanced {
            outcome: Err(refusal),
            course,
        };
    }
    // 10 has let the step pass, so the well's D is within its bound
    let well_depth = step_drawdowns::drawdown_by(
        swept.well_loss,
        terms.well_storage,
        terms.well_multiplier,
    );
    Advanced {
        outcome: Ok(()),
        course: Course {
            well_loss: swept.well_loss,
            well_depth,
            pumped: course.pumped + terms.rate * terms.dt,
            inflow: swept.inflow,
            time: course.time + terms.dt,
            mark: raised(course.mark, well_depth),
        },
    }
}
