// The readings of a record in whole numbers: what a caller names and what it is answered.
#![tactic(auto)]

ghost use Rattle.std.specs.Prelude.{◌≡◌, true, ◌-◌, ◌≤◌, ◌<◌};
ghost use Rattle.record.specs.Record.{slot};
ghost use Rattle.validity.specs.Validity.{valid};
ghost use Rattle.slot_places.specs.Depths.{Depths};

use limits::CELL_PLACES;
use record::Record;

// Place and face are document 01's own terms ('Geometry to coefficients', 'Readings'). A place is the well, or the cell of a layer and a column, which
// count from 1 as there. An end of a face is named in the same way, and may be in the last column.
#[derive(Clone, Copy, Debug, PartialEq, Eq)]
pub enum Place {
    Well,
    Cell(u64, u64),
}

// The water budget of a record, nl, and its mark.
#[derive(Clone, Copy, Debug, PartialEq, Eq)]
pub struct Totals {
    pub pumped: u64,
    pub well_loss: i64,
    pub cell_loss: i64,
    pub inflow: i64,
    pub mark: i64, // the record's mark, µm
}

// The slot of the cell of a layer and a column that a caller names.
pub fn slot_of(layer: u64, column: u64) -> usize
    requires { (1 ≤ layer) × (layer ≤ 20) × (1 ≤ column) × (column ≤ 50) }
    ensures { (result ≡ slot (layer - 1) column) × (result < 1000) }
{
    (50 * (layer - 1) + (column - 1)) as usize
}

// D of each cell of a valid record in its slot, µm. A slot that no cell uses has 0.
pub fn depths(rec: &Record) -> [u64; CELL_PLACES]
    requires { valid rec.now ≡ true }
    ensures { Depths rec.now result }
{
    let layers = rec.site.layers as usize;
    let stored = (rec.site.columns - 1) as usize;
    step_drawdowns::plain_drawdowns(&rec.losses, &rec.storages, layers, stored)
}
