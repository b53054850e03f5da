// The slots of C and S: within their limits where a face or a cell uses them, 0 elsewhere.
#![tactic(auto)]

ghost use Rattle.std.specs.Prelude.{◌≡◌, ◌≤◌};
ghost use Rattle.coefficient_slots.specs.Slots.{used_slot};
ghost use Rattle.coefficient_slots.specs.Held.{inside, slot_holds, array_holds, screen_slot_holds, screen_array_holds, slots_hold};

use limits::{CELL_PLACES, COLUMN_PLACES, CONDUCTANCE_LIMIT, LAYER_PLACES, STORAGE_LIMIT};
use record::Record;

// Whether a cell uses slot k of an array by cell. The slot is for layer k / 50, counted from 0, and column k % 50 + 1; the last column stores nothing.
pub fn slot_used(layers: usize, columns: usize, k: usize) -> bool
    ensures { result ≡ used_slot (inside layers columns) k }
{
    if layers <= k / COLUMN_PLACES {
        return false;
    }
    k % COLUMN_PLACES + 1 < columns
}

#[tactic(auto, unfolding(crate::specs::Held::slot_holds))]
fn slot_holds(layers: usize, columns: usize, lo: u64, hi: u64, k: usize, value: u64) -> bool
    ensures { result ≡ slot_holds layers columns lo hi k value }
{
    if !slot_used(layers, columns, k) {
        return value == 0;
    }
    if value < lo {
        return false;
    }
    value <= hi
}

// An array by cell, of which the slots of the first so many layers are used, but for the last column's.
fn slots_hold(layers: usize, columns: usize, values: &[u64; CELL_PLACES], lo: u64, hi: u64) -> bool
    ensures { result ≡ array_holds layers columns lo hi values.now }
{
    values.iter().enumerate().all(|(k, value)| slot_holds(layers, columns, lo, hi, k, *value))
}

#[tactic(auto, unfolding(crate::specs::Held::screen_slot_holds))]
fn screen_slot_holds(layers: usize, i: usize, screened: u64, value: u64) -> bool
    ensures { result ≡ screen_slot_holds layers i screened value }
{
    if i < layers && screened == 1 {
        value <= CONDUCTANCE_LIMIT
    } else {
        value == 0
    }
}

// The well's faces, one in each screened layer.
fn screen_slots_hold(rec: &Record) -> bool
    ensures { result ≡ screen_array_holds rec.now.site.layers rec.now.site.screened rec.now.screen }
{
    let layers = rec.site.layers as usize;
    for i in 0..LAYER_PLACES {
        if !screen_slot_holds(layers, i, rec.site.screened[i], rec.screen[i]) {
            return false;
        }
    }
    true
}

// Every C and S of a record, and 0 in every slot that no face or cell uses.
#[tactic(auto, unfolding(crate::specs::Held::slots_hold))]
pub fn coefficients_hold(rec: &Record) -> bool
    requires { 1 ≤ rec.now.site.layers }
    ensures { result ≡ slots_hold rec.now }
{
    let layers = rec.site.layers as usize;
    let columns = rec.site.columns as usize;
    screen_slots_hold(rec)
        && slots_hold(layers, columns, &rec.horizontal, 0, CONDUCTANCE_LIMIT)
        && slots_hold(layers - 1, columns, &rec.vertical, 0, CONDUCTANCE_LIMIT)
        && slots_hold(layers, columns, &rec.storages, 1, STORAGE_LIMIT)
}
