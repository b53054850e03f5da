// The drawdown at a place of a record.
#![tactic(auto)]

ghost use Rattle.std.specs.Prelude.{◌≡◌, true, pos};
ghost use Rattle.network.specs.Network.{drawdown};
ghost use Rattle.network.specs.Grid.{network_of};
ghost use Rattle.record.specs.Record.{grid_of, state_of};
ghost use Rattle.validity.specs.Validity.{valid};
ghost use Rattle.readings.specs.Readings.{is_named, number_of, drawdown_of};
ghost use Rattle.read_drawdown.specs.Ends.{End};

use readings::Place;
use record::Record;
use refusals::Refusal;

// Whether there is such a place: the well, or a cell that stores water. Those of the last column do not.
#[tactic(auto, unfolding(readings::specs::Readings::is_named, readings::specs::Readings::is_layer, readings::specs::Readings::is_stored, record::specs::Record::grid_of))]
fn is_named(rec: &Record, place: Place) -> bool
    ensures { result ≡ is_named (grid_of rec.now) place }
{
    match place {
        Place::Well => true,
        Place::Cell(layer, column) => {
            1 <= layer && layer <= rec.site.layers && 1 <= column && column < rec.site.columns
        }
    }
}

// D of an end of a face of a valid record, µm. Nothing stands in a slot of the last column, so it is 0 there.
pub fn drawdown_at(rec: &Record, end: Place) -> u64
    requires { (valid rec.now ≡ true) × End (grid_of rec.now) end }
    ensures { pos result ≡ drawdown (network_of (grid_of rec.now)) (state_of rec.now).losses (number_of (grid_of rec.now) end) }
{
    match end {
        Place::Well => step_drawdowns::drawdown(rec.well_loss, rec.well_storage),
        Place::Cell(layer, column) => {
            let slot = readings::slot_of(layer, column);
            step_drawdowns::drawdown(rec.losses[slot], rec.storages[slot])
        }
    }
}

// Drawdown at a place, µm.
pub fn drawdown(record: Record, place: Place) -> Result<i64, Refusal>
    ensures { result ≡ drawdown_of «record» place }
{
    if !validity::valid(record) {
        return Err(Refusal::Record);
    }
    if !is_named(&record, place) {
        return Err(Refusal::NoSuch);
    }
    Ok(drawdown_at(&record, place) as i64)
}
