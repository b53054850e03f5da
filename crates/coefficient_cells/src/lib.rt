// C of the faces and S of the cells of a scenario whose numbers 2, 3 and 4 do not refuse, each in a word.
#![tactic(auto)]

ghost use Rattle.std.specs.Prelude.{◌≡◌, ◌<◌};
ghost use Rattle.limits.specs.Limits.{layer_places};
ghost use Rattle.record.specs.Record.{is_cell, has_below};
ghost use Rattle.coefficient_cells.specs.Cells.{across_of, down_of, storage_of};
ghost use Rattle.coefficient_cells.specs.Worked.{InLimits, Logarithms, areas_of, Areas, word_of, slot_of};

use geometry::{
    area, confined_storage, from_table, horizontal, logarithm, unconfined_storage, vertical,
};
use limits::COLUMN_PLACES;
use site::Site;

// Λ(u_(j+1), u_j) in slot j for each column j before the last.
pub fn logarithms_of(site: Site) -> [u64; COLUMN_PLACES]
    requires { InLimits site }
    ensures { Logarithms site result }
{
    let m = site.columns as usize;
    let mut logarithms = [0; COLUMN_PLACES];
    let mut previous = site.well_radius;
    let mut radius = site.well_radius;
    for j in 0..m {
        let next = site.radii[j];
        logarithms[j] = logarithm(radius + next, previous + radius);
        previous = radius;
        radius = next;
    }
    logarithms
}

// Area A_j, mm², in slot j for each column j from 1 to the one before the last; slot 0 holds 0.
pub fn areas_of(site: Site) -> [u64; COLUMN_PLACES]
    requires { InLimits site }
    ensures { result ≡ areas_of site }
{
    let m = site.columns as usize;
    let mut areas = [0; COLUMN_PLACES];
    let mut previous = site.well_radius;
    let mut radius = site.well_radius;
    for j in 0..m {
        areas[j] = area(radius, previous);
        previous = radius;
        radius = site.radii[j];
    }
    areas
}

// A quotient as a word. The largest word, which is over each limit, stands for a quotient that fits none.
fn word_of(q: Option<u64>) -> u64
    ensures { result ≡ word_of q }
{
    q.unwrap_or(u64::MAX)
}

// C of layer i between columns j and j + 1, as its slot holds it: 0 where the grid has no such face.
#[tactic(auto, unfolding(crate::specs::Worked::slot_of, crate::specs::Worked::capped, record::specs::Record::is_cell, crate::specs::Cells::across_of))]
pub fn across(site: Site, logarithms: &[u64; COLUMN_PLACES], i: usize, j: usize) -> u64
    requires { InLimits site × Logarithms site logarithms.now }
    ensures { result ≡ slot_of (is_cell site i j) (across_of site i j) }
{
    if site.layers as usize <= i || site.columns as usize <= j {
        return 0;
    }
    word_of(horizontal(site.thickness[i], site.kh[i], logarithms[j]))
}

// C of column j between layers i and i + 1, in the same way: the last column has no such face. Between layers 1 and 2 it is the value at s = 0.
#[tactic(auto, unfolding(crate::specs::Worked::slot_of, crate::specs::Worked::capped, record::specs::Record::has_below, crate::specs::Cells::down_of))]
pub fn down(site: Site, areas: &[u64; COLUMN_PLACES], i: usize, j: usize) -> u64
    requires { InLimits site × Areas site areas.now × (i < layer_places) }
    ensures { result ≡ slot_of (has_below site i j) (down_of site i j) }
{
    let below = i + 1;
    if site.layers as usize <= below || site.columns as usize <= j {
        return 0;
    }
    if below == 1 {
        return word_of(from_table(areas[j], site.kv[0], site.thickness[1], site.kv[1], 0));
    }
    word_of(vertical(
        areas[j],
        site.thickness[i],
        site.kv[i],
        site.thickness[below],
        site.kv[below],
    ))
}

// S of the cell of layer i and column j, in the same way.
#[tactic(auto, unfolding(crate::specs::Worked::slot_of, crate::specs::Worked::capped, record::specs::Record::is_cell, crate::specs::Cells::storage_of))]
pub fn storage(site: Site, areas: &[u64; COLUMN_PLACES], i: usize, j: usize) -> u64
    requires { InLimits site × Areas site areas.now }
    ensures { result ≡ slot_of (is_cell site i j) (storage_of site i j) }
{
    if site.layers as usize <= i || site.columns as usize <= j {
        return 0;
    }
    if i == 0 {
        return word_of(unconfined_storage(areas[j], site.storage[0]));
    }
    word_of(confined_storage(areas[j], site.thickness[i], site.storage[i]))
}
