// The coefficients of a scenario, judged by rule 6, and the record at the start.
#![tactic(auto)]

ghost use Rattle.std.specs.Prelude.{◌≡◌, true, ◌<◌};
ghost use Rattle.limits.specs.Limits.{layer_places};
ghost use Rattle.site.specs.Site.{counts_hold, numbers_hold, radii_hold};
ghost use Rattle.record.specs.Record.{slots, layer_slots, is_cell, has_below, has_screen};
ghost use Rattle.coefficient_cells.specs.Cells.{across_of, down_of, storage_of};
ghost use Rattle.coefficient_cells.specs.Worked.{InLimits, Logarithms, Areas, slot_of};
ghost use Rattle.coefficients.specs.Coefficients.{coefficients_of};

use coefficient_cells::{across, areas_of, down, logarithms_of, storage};
use coefficient_slots::coefficients_hold;
use geometry::well_storage;
use limits::{CELL_PLACES, COLUMN_PLACES, LAYER_PLACES};
use record::Record;
use site::Site;
use std::array;

// C of layer i between the well and column 1, if the layer is screened.
#[tactic(auto, unfolding(coefficient_cells::specs::Worked::slot_of, record::specs::Record::is_cell, record::specs::Record::has_screen, site::specs::Site::is_screened))]
fn at_well(site: Site, logarithms: &[u64; COLUMN_PLACES], i: usize) -> u64
    requires { InLimits site × Logarithms site logarithms.now × (i < layer_places) }
    ensures { result ≡ slot_of (has_screen site i) (across_of site i 0) }
{
    if site.screened[i] != 1 {
        return 0;
    }
    across(site, logarithms, i, 0)
}

// The coefficients of the well's faces, each in its layer's slot.
fn screen_of(site: Site, logarithms: &[u64; COLUMN_PLACES]) -> [u64; LAYER_PLACES]
    requires { InLimits site × Logarithms site logarithms.now }
    ensures { result ≡ layer_slots (λ i. slot_of (has_screen site i) (across_of site i 0)) }
{
    array::from_fn(|i| at_well(site, logarithms, i))
}

// C between the columns, each in its cell's slot.
fn horizontal_of(site: Site, logarithms: &[u64; COLUMN_PLACES]) -> [u64; CELL_PLACES]
    requires { InLimits site × Logarithms site logarithms.now }
    ensures { result ≡ slots (λ i j. slot_of (is_cell site i j) (across_of site i j)) }
{
    array::from_fn(|k| across(site, logarithms, k / COLUMN_PLACES, k % COLUMN_PLACES + 1))
}

// C between the layers, each in the slot of the cell above.
fn vertical_of(site: Site, areas: &[u64; COLUMN_PLACES]) -> [u64; CELL_PLACES]
    requires { InLimits site × Areas site areas.now }
    ensures { result ≡ slots (λ i j. slot_of (has_below site i j) (down_of site i j)) }
{
    array::from_fn(|k| down(site, areas, k / COLUMN_PLACES, k % COLUMN_PLACES + 1))
}

// S of the cells, each in its slot.
fn storages_of(site: Site, areas: &[u64; COLUMN_PLACES]) -> [u64; CELL_PLACES]
    requires { InLimits site × Areas site areas.now }
    ensures { result ≡ slots (λ i j. slot_of (is_cell site i j) (storage_of site i j)) }
{
    array::from_fn(|k| storage(site, areas, k / COLUMN_PLACES, k % COLUMN_PLACES + 1))
}

// The record at the start, if rule 6 does not refuse its coefficients.
pub fn coefficients_of(site: Site) -> Option<Record>
    requires { (counts_hold site ≡ true) × (numbers_hold site ≡ true) × (radii_hold site ≡ true) }
    ensures { result ≡ coefficients_of site }
{
    let logarithms = logarithms_of(site);
    let areas = areas_of(site);
    let start = Record {
        site,
        screen: screen_of(site, &logarithms),
        horizontal: horizontal_of(site, &logarithms),
        vertical: vertical_of(site, &areas),
        storages: storages_of(site, &areas),
        losses: [0; CELL_PLACES],
        well_storage: well_storage(site.water_area),
        well_loss: 0,
        pumped: 0,
        inflow: 0,
        time: 0,
        mark: 0,
    };
    if coefficients_hold(&start) {
        Some(start)
    } else {
        None
    }
}
