// The record of a run, by value, and the answers that start, step and repeat give.
#![tactic(auto)]

ghost use Rattle.std.specs.Prelude.{◌≡◌};
ghost use Rattle.record.specs.Record.{zero_record};

use limits::{CELL_PLACES, COEFFICIENT_PLACES, COLUMN_PLACES, LAYER_PLACES};
use refusals::Refusal;
use site::Site;

// Slot 50×i + j of an array of 1,000 is for layer i + 1 and column j + 1 of document 01: one slot for each cell, also for its face with
// the next column and its face with the layer below. Slot i of `screen` is for layer i + 1.
// A slot that no layer, column, face or place uses is 0; so the last column's slots are.
#[derive(Clone, Copy, PartialEq, Eq)]
pub struct Record {
    pub site: Site, // the numbers of the first four sections
    pub screen: [u64; LAYER_PLACES], // C between the well and column 1, 10^-12 m²/s
    pub horizontal: [u64; CELL_PLACES], // C between the cell and the next column, 10^-12 m²/s
    pub vertical: [u64; CELL_PLACES], // C between the cell and the layer below, 10^-12 m²/s; from layer 1 the value at s = 0
    pub storages: [u64; CELL_PLACES], // S of the cell, nl per m
    pub losses: [i64; CELL_PLACES], // V of the cell, nl
    pub well_storage: u64, // S of the well, nl per m
    pub well_loss: i64, // V of the well, nl
    pub pumped: u64, // pumped total, nl
    pub inflow: i64, // inflow total, nl
    pub time: u64, // µs
    pub mark: i64, // deepest mark (document 02, N1): the largest D of the well since start, µm
}

// What became of a scenario text or a step, Ok where it was taken, and the record.
#[derive(Clone, Copy)]
pub struct Answer {
    pub outcome: Result<(), Refusal>,
    pub record: Record,
}

// What became of many steps: taken, or the refusal that ended them; the record after those before it, and how many these were.
#[derive(Clone, Copy)]
pub struct Repeated {
    pub outcome: Result<(), Refusal>,
    pub record: Record,
    pub taken: u64,
}

// The all-zero record, of which every array begins as zeros.
pub fn all_zero() -> Record
    ensures { result ≡ zero_record }
{
    Record {
        site: Site {
            layers: 0,
            thickness: [0; LAYER_PLACES],
            screened: [0; LAYER_PLACES],
            kh: [0; LAYER_PLACES],
            kv: [0; LAYER_PLACES],
            storage: [0; LAYER_PLACES],
            columns: 0,
            radii: [0; COLUMN_PLACES],
            well_radius: 0,
            water_area: 0,
            intake: 0,
            friction: 0,
            loss_count: 0,
            loss_coefficients: [0; COEFFICIENT_PLACES],
        },
        screen: [0; LAYER_PLACES],
        horizontal: [0; CELL_PLACES],
        vertical: [0; CELL_PLACES],
        storages: [0; CELL_PLACES],
        losses: [0; CELL_PLACES],
        well_storage: 0,
        well_loss: 0,
        pumped: 0,
        inflow: 0,
        time: 0,
        mark: 0,
    }
}
