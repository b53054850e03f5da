// The checksum of a record, FNV-1a of 64 bits over the numbers that it uses, for the programs held to the reference model; tests/README.md has
// their order. Its functions promise nothing but to end: what they give is held to the model's.
#![tactic(auto)]

use check_print::size;
use limits::{CELL_PLACES, COLUMN_PLACES, LAYER_PLACES};
use record::Record;
use site::Site;

const OFFSET: u64 = 14695981039346656037;

const PRIME: u64 = 1099511628211;

// One number more, as 8 bytes, the lowest first.
fn with(sum: u64, number: u64) -> u64 {
    number.to_le_bytes().iter().fold(
        sum,
        |mixed, byte| (mixed ^ u64::from(*byte)).wrapping_mul(PRIME),
    )
}

fn with_all(sum: u64, numbers: &[u64]) -> u64 {
    numbers
        .iter()
        .fold(sum, |mixed, number| with(mixed, *number))
}

// Those numbers of an array that are used: the first n.
fn with_first(sum: u64, numbers: &[u64], n: u64) -> u64 {
    with_all(sum, &numbers[..numbers.len().min(n as usize)])
}

fn with_layers(sum: u64, site: &Site) -> u64 {
    let mut mixed = with(sum, site.layers);
    for i in 0..LAYER_PLACES.min(site.layers as usize) {
        mixed = with_all(
            mixed,
            &[
                site.thickness[i],
                site.screened[i],
                site.kh[i],
                site.kv[i],
                site.storage[i],
            ],
        );
    }
    mixed
}

fn with_site(sum: u64, site: &Site) -> u64 {
    let layers = with_layers(sum, site);
    let columns = with_first(with(layers, site.columns), &site.radii, site.columns);
    let well = with_all(
        columns,
        &[
            site.well_radius,
            site.water_area,
            site.intake,
            site.friction,
            site.loss_count,
        ],
    );
    with_first(well, &site.loss_coefficients, site.loss_count)
}

// The numbers of an array by cell: of n layers, the slots of columns 1 to m−1.
fn with_cells(sum: u64, numbers: &[u64; CELL_PLACES], n: u64, m: u64) -> u64 {
    let mut mixed = sum;
    for i in 0..LAYER_PLACES.min(n as usize) {
        let row = COLUMN_PLACES * i;
        mixed = with_first(
            mixed,
            &numbers[row..row + COLUMN_PLACES],
            m.saturating_sub(1),
        );
    }
    mixed
}

// The same of C to the next column, in a screened layer after the well's C.
fn with_across(sum: u64, rec: &Record) -> u64 {
    let m = rec.site.columns;
    let mut mixed = sum;
    for i in 0..LAYER_PLACES {
        if rec.site.screened[i] == 1 {
            mixed = with(mixed, rec.screen[i]);
        }
        if (i as u64) < rec.site.layers {
            let row = COLUMN_PLACES * i;
            mixed = with_first(
                mixed,
                &rec.horizontal[row..row + COLUMN_PLACES],
                m.saturating_sub(1),
            );
        }
    }
    mixed
}

pub fn checksum_of(rec: &Record) -> u64 {
    let n = rec.site.layers;
    let m = rec.site.columns;
    let across = with_across(with_site(OFFSET, &rec.site), rec);
    let down = with_cells(across, &rec.vertical, n.saturating_sub(1), m);
    let storages = with_cells(with(down, rec.well_storage), &rec.storages, n, m);
    // no loss of a valid record is negative
    let losses = rec.losses.map(|loss| size(loss));
    let lost = with_cells(with(storages, size(rec.well_loss)), &losses, n, m);
    with_all(
        lost,
        &[rec.pumped, size(rec.inflow), rec.time, size(rec.mark)],
    )
}
