// Condition 8 on a step: the sums of C of a place's faces, and what is judged by them.
#![tactic(auto)]

ghost use Rattle.std.specs.Prelude.{◌≡◌, true, ℕ, ◌<◌, ◌≤◌, get_or};
ghost use Rattle.limits.specs.Limits.{conductance_limit};
ghost use Rattle.network.specs.Network.{stable};
ghost use Rattle.network.specs.Grid.{network_of};
ghost use Rattle.record.specs.Record.{grid_of};
ghost use Rattle.validity.specs.Validity.{valid};
ghost use Rattle.step_stability.specs.Stability.{Limited, inward_c, upper_c, cell_sum, well_sum, cell_steady, slots_steady};

use limits::COLUMN_PLACES;
use record::Record;
use words::multiply::product_le;

// C of the face of the cell in slot k toward the well: in column 1 the well's own face with that layer.
#[tactic(auto, unfolding(crate::specs::Stability::inward_c))]
fn inward(rec: &Record, k: usize) -> u64
    requires { k < 1000 }
    ensures { result ≡ inward_c rec.now.screen rec.now.horizontal k }
{
    if k % COLUMN_PLACES == 0 {
        rec.screen[k / COLUMN_PLACES]
    } else {
        rec.horizontal[k - 1]
    }
}

// C of the face of the cell in slot k with the layer above.
#[tactic(auto, unfolding(crate::specs::Stability::upper_c))]
fn upper(rec: &Record, k: usize) -> u64
    requires { k < 1000 }
    ensures { result ≡ upper_c rec.now.vertical k }
{
    if k < COLUMN_PLACES {
        0
    } else {
        rec.vertical[k - COLUMN_PLACES]
    }
}

// The sum of C of the faces of the cell in slot k, unreduced (between layers 1 and 2 at s = 0, N6): outward, inward, with the layer below and with the layer above.
pub fn cell_sum(rec: &Record, k: usize) -> u64
    requires { (k < 1000) × Limited rec.now.screen rec.now.horizontal rec.now.vertical }
    ensures { result ≡ cell_sum rec.now.screen rec.now.horizontal rec.now.vertical k }
{
    rec.horizontal[k] + inward(rec, k) + rec.vertical[k] + upper(rec, k)
}

// The sum of C of the well's faces with the first `layers` layers, unreduced.
pub fn well_sum(layers: usize, rec: &Record) -> u64
    requires { (layers ≤ 20) × ((i : ℕ) → i < 20 → get_or rec.now.screen i 0 ≤ conductance_limit) }
    ensures { result ≡ well_sum layers rec.now.screen }
{
    let mut sum = 0;
    for i in 0..layers {
        sum += rec.screen[i];
    }
    sum
}

// 8 at one slot; a slot of the last column, or past it, is no place.
#[tactic(auto, unfolding(crate::specs::Stability::cell_steady))]
fn cell_steady(rec: &Record, dt: u64, k: usize) -> bool
    requires { (k < 1000) × Limited rec.now.screen rec.now.horizontal rec.now.vertical }
    ensures { result ≡ cell_steady rec.now.site.columns rec.now.screen rec.now.horizontal rec.now.vertical rec.now.storages dt k }
{
    rec.site.columns as usize <= k % COLUMN_PLACES + 1
        || product_le(dt, cell_sum(rec, k), 1000000, rec.storages[k])
}

// 8 at every place: Δt × (sum of C of its faces) is at most 10^6 × S.
fn steady(rec: &Record, dt: u64) -> bool
    requires { (rec.now.site.layers ≤ 20) × Limited rec.now.screen rec.now.horizontal rec.now.vertical }
    ensures { result ≡ slots_steady rec.now.site.layers rec.now.site.columns rec.now.screen rec.now.horizontal rec.now.vertical rec.now.storages rec.now.well_storage dt }
{
    let layers = rec.site.layers as usize;
    product_le(dt, well_sum(layers, rec), 1000000, rec.well_storage)
        && (0..layers * COLUMN_PLACES).all(|k| cell_steady(rec, dt, k))
}

// 8 on a valid record.
pub fn stable(record: Record, dt: u64) -> bool
    requires { valid «record» ≡ true }
    ensures { result ≡ stable (network_of (grid_of «record»)) dt }
{
    steady(&record, dt)
}
