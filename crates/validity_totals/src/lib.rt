// A record's losses and totals: none negative, 0 where no cell has a loss, and together the pumped total.
#![tactic(auto)]

ghost use Rattle.std.specs.Prelude.{◌≡◌, ◌&&◌, ◌+◌, nat_abs, eqb};
ghost use Rattle.validity_totals.specs.Totals.{loss_slot_holds, loss_slots_hold, loss_sum, totals_agree};

use limits::{CELL_PLACES, TOTAL_LIMIT};
use record::Record;

#[tactic(auto, using(crate::proofs::Laws::signs), unfolding(crate::specs::Totals::loss_slot_holds))]
fn loss_slot_holds(layers: usize, columns: usize, k: usize, loss: i64) -> bool
    ensures { result ≡ loss_slot_holds layers columns k loss }
{
    loss >= 0 && (coefficient_slots::slot_used(layers, columns, k) || loss == 0)
}

// No loss is negative, and 0 stands where no cell has one.
fn loss_slots_hold(rec: &Record) -> bool
    ensures { result ≡ loss_slots_hold rec.now.site.layers rec.now.site.columns rec.now.losses }
{
    let layers = rec.site.layers as usize;
    let columns = rec.site.columns as usize;
    for k in 0..CELL_PLACES {
        if !loss_slot_holds(layers, columns, k, rec.losses[k]) {
            return false;
        }
    }
    true
}

// Whether the cells' losses and the rest add up to the total. What is left of the total is kept, so that no sum can wrap.
#[tactic(auto, using(crate::proofs::Laws::losses))]
fn losses_add_up(total: u64, losses: &[i64; CELL_PLACES], rest: u64) -> bool
    ensures { result ≡ eqb (loss_sum 1000 losses.now + rest) total }
{
    let mut left = total;
    for loss in losses {
        let loss = loss.unsigned_abs();
        if left < loss {
            return false;
        }
        left -= loss;
    }
    left == rest
}

#[tactic(auto, unfolding(crate::specs::Totals::totals_agree))]
fn totals_agree(rec: &Record) -> bool
    ensures { result ≡ totals_agree rec.now.losses rec.now.well_loss rec.now.inflow rec.now.pumped rec.now.time }
{
    rec.well_loss >= 0
        && rec.inflow >= 0
        && rec.pumped <= TOTAL_LIMIT
        && rec.time <= TOTAL_LIMIT
        && losses_add_up(
            rec.pumped,
            &rec.losses,
            rec.well_loss.unsigned_abs() + rec.inflow.unsigned_abs(),
        )
}

// The losses of the cells and of the well, and the totals.
pub fn totals_hold(rec: &Record) -> bool
    ensures { result ≡ (loss_slots_hold rec.now.site.layers rec.now.site.columns rec.now.losses && totals_agree rec.now.losses rec.now.well_loss rec.now.inflow rec.now.pumped rec.now.time) }
{
    loss_slots_hold(rec) && totals_agree(rec)
}
