// The water budget of a record with its mark, and the storage loss of a set of its places.
#![tactic(auto)]

ghost use Rattle.std.specs.Prelude.{◌≡◌, not, map, ◌+◌, ◌*◌, ◌-◌, ◌≤◌, ◌<◌, eqb, pos, length};
ghost use Rattle.laws.specs.Lists.{ifℤ, sumℤ, range};
ghost use Rattle.laws.specs.Sums.{Room};
ghost use Rattle.limits.specs.Limits.{total_limit};
ghost use Rattle.readings.specs.Readings.{budget_of, loss_of};
ghost use Rattle.read_budget.specs.Counted.{slot_loss, counted_loss, every_cell};

use limits::{CELL_PLACES, COLUMN_PLACES};
use readings::Totals;
use record::Record;
use refusals::Refusal;

// How many places there are: the well and the cells of the stored columns.
fn place_count(layers: u64, columns: u64) -> usize
    requires { (layers ≤ 20) × (1 ≤ columns) × (columns ≤ 50) }
    ensures { result ≡ 1 + layers * (columns - 1) }
{
    (1 + layers * (columns - 1)) as usize
}

// V of place p: the well is place 0, and the cells follow by layer and column, `stored` columns a layer.
fn loss_of(well: i64, losses: &[i64; CELL_PLACES], stored: usize, p: usize) -> i64
    requires { (0 < stored) × (stored ≤ 50) × (p < 1 + 20 * stored) }
    ensures { result ≡ slot_loss well losses.now stored p }
{
    if p == 0 {
        return well;
    }
    losses[COLUMN_PLACES * ((p - 1) / stored) + (p - 1) % stored]
}

// What a place adds to the loss of a set in which its byte is `byte`.
fn counted(byte: u8, loss: i64) -> i64
    ensures { result ≡ ifℤ (not (eqb byte 0)) loss }
{
    if byte == 0 { 0 } else { loss }
}

// Storage loss of a set of the first `places` places.
fn loss_in<'a>(
    well: i64,
    losses: &'a [i64; CELL_PLACES],
    stored: usize,
    places: usize,
    set: &'a [u8],
) -> i64
    requires stored_nonzero { (0 < stored) × (stored ≤ 50) × (places ≤ 1 + 20 * stored) × (places ≤ length set.now) }
    requires room { Room total_limit (pos 0) (map (counted_loss well losses.now stored set.now) (range 0 places)) }
    ensures { result ≡ sumℤ (range 0 places) (counted_loss well losses.now stored set.now) }
{
    let mut sum = 0;
    for p in 0..places {
        sum += counted(set[p], loss_of(well, losses, stored, p));
    }
    sum
}

// The set of every cell, the well left out: a byte for each place of the largest grid.
fn every_cell() -> [u8; 981]
    ensures { result ≡ every_cell }
{
    let mut set = [1u8; 981];
    set[0] = 0;
    set
}

// The water budget, and the mark.
pub fn budget(record: Record) -> Result<Totals, Refusal>
    ensures { result ≡ budget_of «record» }
{
    if !validity::valid(record) {
        return Err(Refusal::Record);
    }
    let places = place_count(record.site.layers, record.site.columns);
    let stored = record.site.columns as usize - 1;
    let cells = every_cell();
    let cell_loss = loss_in(record.well_loss, &record.losses, stored, places, &cells);
    Ok(Totals {
        pumped: record.pumped,
        well_loss: record.well_loss,
        cell_loss,
        inflow: record.inflow,
        mark: record.mark,
    })
}

// Storage loss of a set of places, nl: a byte for each place, the well first, then the cells by layer and column; nonzero means in.
pub fn storage_loss(record: Record, set: &[u8]) -> Result<i64, Refusal>
    ensures { result ≡ loss_of «record» set.now }
{
    if !validity::valid(record) {
        return Err(Refusal::Record);
    }
    let places = place_count(record.site.layers, record.site.columns);
    if set.len() != places {
        return Err(Refusal::LentLength);
    }
    let stored = record.site.columns as usize - 1;
    Ok(loss_in(record.well_loss, &record.losses, stored, places, set))
}
