// Every D of a record within its limit, and the mark.
#![tactic(auto)]

ghost use Rattle.std.specs.Prelude.{◌≡◌, ◌≤◌, ◌<◌, pos, ◌≤ℤ◌, get_or};
ghost use Rattle.limits.specs.Limits.{drawdown_limit};
ghost use Rattle.validity_drawdowns.specs.Drawdowns.{deeper, Stored, depth_slot_holds, depth_slots_hold, depths_hold};

use limits::{CELL_PLACES, COLUMN_PLACES};
use record::Record;
use words::multiply::product_le;

// Whether the D of a place with this storage and loss is deeper than the limit, µm: limit + 1 ≤ V×10^6/S. The quotient itself may not fit a word.
#[tactic(auto, using(crate::proofs::Laws::depths))]
pub fn deeper_than(limit: u64, storage: u64, loss: i64) -> bool
    requires { (limit ≤ drawdown_limit) × (0 < storage) × (pos 0 ≤ℤ loss) }
    ensures { result ≡ deeper limit storage loss }
{
    product_le(limit + 1, storage, loss as u64, 1000000)
}

// A cell's slot: no D past the mark, µm, nor in layer 1 past `table`.
#[tactic(auto, unfolding(crate::specs::Drawdowns::depth_slot_holds))]
fn depth_slot_holds(rec: &Record, table: u64, mark: u64, k: usize) -> bool
    requires { (table ≤ drawdown_limit) × (mark ≤ drawdown_limit) × (k < 1000) × Stored rec.now.site.layers rec.now.site.columns rec.now.storages rec.now.losses }
    ensures { result ≡ depth_slot_holds rec.now.site.layers rec.now.site.columns table mark k (get_or rec.now.storages k 0) (get_or rec.now.losses k (pos 0)) }
{
    if !coefficient_slots::slot_used(rec.site.layers as usize, rec.site.columns as usize, k) {
        return true;
    }
    let storage = rec.storages[k];
    let loss = rec.losses[k];
    if deeper_than(mark, storage, loss) {
        return false;
    }
    k >= COLUMN_PLACES || !deeper_than(table, storage, loss)
}

fn depth_slots_hold(rec: &Record, table: u64, mark: u64) -> bool
    requires { (table ≤ drawdown_limit) × (mark ≤ drawdown_limit) × Stored rec.now.site.layers rec.now.site.columns rec.now.storages rec.now.losses }
    ensures { result ≡ depth_slots_hold rec.now.site.layers rec.now.site.columns table mark rec.now.storages rec.now.losses }
{
    (0..CELL_PLACES).all(|k| depth_slot_holds(rec, table, mark, k))
}

// The mark is not past `intake`, µm; no D is past the mark, nor in layer 1 past `table`. A mark below 0 is under the well's D, which is not below 0
// here. That the well's D is not past `intake`, nor a cell's past 10^9 µm, follows from these and is not tested again.
#[tactic(auto, unfolding(crate::specs::Drawdowns::depths_hold))]
pub fn drawdowns_hold(rec: &Record, table: u64, intake: u64) -> bool
    requires { (table ≤ drawdown_limit) × (intake ≤ drawdown_limit) × Stored rec.now.site.layers rec.now.site.columns rec.now.storages rec.now.losses × (0 < rec.now.well_storage) × (pos 0 ≤ℤ rec.now.well_loss) }
    ensures { result ≡ depths_hold rec.now.site.layers rec.now.site.columns table intake rec.now.mark rec.now.storages rec.now.losses rec.now.well_storage rec.now.well_loss }
{
    let Ok(mark) = u64::try_from(rec.mark) else {
        return false;
    };
    mark <= intake
        && !deeper_than(mark, rec.well_storage, rec.well_loss)
        && depth_slots_hold(rec, table, mark)
}
