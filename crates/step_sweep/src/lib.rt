// One step worked on lent arrays by slot, all its faces from the drawdowns at its start; nothing is judged here.
// C is in 10^-12 m²/s, S in nl per m, V and totals in nl, thicknesses in mm, areas in mm², Kv in nm/s, the rate in ml/s, dt in µs.
#![tactic(auto)]

ghost use Rattle.std.specs.Prelude.{◌≡◌, pos};
ghost use Rattle.step_drawdowns.specs.Drawdowns.{depth_of, Multiplied};
ghost use Rattle.step_sweep.specs.Worked.{lent, Workable, Scratch, Worked};

use limits::{CELL_PLACES, COLUMN_PLACES};
use record::Record;
use step_losses::{Faces, Swept};

// What stays the same in every step of a run.
#[derive(Clone, Copy)]
pub struct Terms {
    pub layers: usize,
    pub columns: usize,
    pub thickness: u64, // b_1, mm
    pub kv1: u64, // Kv_1, nm/s
    pub b2: u64, // b_2, mm
    pub kv2: u64, // Kv_2, nm/s
    pub intake: u64, // depth of the intake, mm
    pub well_storage: u64, // S of the well, nl per m
    pub well_multiplier: u64, // the multiplier of that S, 0 for none
    pub rate: u64, // ml/s
    pub dt: u64, // µs
}

// The arrays that a step works in, by slot. In the slots that a step does not fill they keep what they hold.
#[derive(Drop)]
pub struct Workspace {
    pub faces: Faces,
    pub before: [i64; CELL_PLACES], // V before the step, nl
}

// One step: it moves the cells' losses, of which `work.before` then has what they were, and gives the well's loss and the inflow total. `well` is
// the well's D at the start of the step, µm. A multiplier of 0 stands for none.
pub fn work_step(
    terms: Terms,
    well_loss: i64,
    well: u64,
    inflow: i64,
    rec: &Record,
    areas: &[u64; COLUMN_PLACES],
    multipliers: &[u64; CELL_PLACES],
    losses: &mut [i64; CELL_PLACES],
    work: &mut Workspace,
) -> Swept
    requires workable { Workable (lent terms well_loss inflow areas.now rec.now.screen rec.now.horizontal rec.now.vertical rec.now.storages losses.old) }
    requires well_value { (pos well ≡ depth_of well_loss terms.well_storage) × Multiplied multipliers.now rec.now.storages }
    requires scratch { Scratch terms.layers terms.columns rec.now.horizontal work.old.faces.depths work.old.faces.conductances work.old.faces.down work.old.before }
    ensures { Worked (lent terms well_loss inflow areas.now rec.now.screen rec.now.horizontal rec.now.vertical rec.now.storages losses.old) result losses.new work.new.faces.depths work.new.faces.conductances work.new.faces.down work.new.before }
{
    let Terms {
        layers,
        columns,
        thickness,
        kv1,
        b2,
        kv2,
        rate,
        dt,
        ..
    } = terms;
    let stored = columns - 1;
    let well_pumped = step_losses::with_pumped(well_loss, rate, dt);
    let Faces {
        depths,
        conductances,
        down,
    } = &mut work.faces;
    step_drawdowns::drawdowns(losses, &rec.storages, multipliers, layers, stored, depths);
    step_flows::in_use(&rec.horizontal, depths, thickness, stored, conductances);
    step_flows::down_flows(
        areas,
        &rec.vertical,
        depths,
        thickness,
        kv1,
        b2,
        kv2,
        layers - 1,
        stored,
        dt,
        down,
    );
    step_losses::sweep(
        &rec.screen,
        &work.faces,
        layers,
        stored,
        well,
        well_pumped,
        inflow,
        dt,
        losses,
        &mut work.before,
    )
}
