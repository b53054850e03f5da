// The numbers of a scenario's first four sections, and document 01's limits and rules for them.
#![tactic(auto)]

ghost use Rattle.std.specs.Prelude.{◌≡◌, ◌&&◌, true, Some, None, if◌then◌else◌, ◌+◌, ◌*◌, ◌≤◌, leb, ltb};
ghost use Rattle.std.specs.List.{list_all};
ghost use Rattle.limits.specs.Limits.{layer_count, column_count, coefficient_count, radius_limits, well_radius_limits, water_area_limits, intake_limits, friction_limits, midsection_factor};
ghost use Rattle.site.specs.Site.{screen_layer, layer_top, counts_hold, storage_holds, layer_holds, layers_hold, columns_hold, screen_loss_holds, numbers_hold, radii_hold, screen_holds};

use limits::{
    COEFFICIENT_LIMIT, COEFFICIENT_PLACES, COLUMN_PLACES, CONDUCTIVITY_LIMIT, FRICTION_LIMIT,
    INTAKE_LIMIT, LAYER_PLACES, MIDSECTION_FACTOR, RADIUS_LIMIT, SPECIFIC_STORAGE_LIMIT,
    THICKNESS_LIMIT, WATER_AREA_LIMIT, WELL_RADIUS_LEAST, WELL_RADIUS_LIMIT, YIELD_LIMIT,
};

// Slot i of an array by layer is for layer i + 1 of document 01, slot j of `radii` for column j + 1.
// A slot that no layer, column or coefficient uses is 0.
#[derive(Clone, Copy, PartialEq, Eq)]
pub struct Site {
    pub layers: u64, // how many
    pub thickness: [u64; LAYER_PLACES], // b, mm
    pub screened: [u64; LAYER_PLACES], // 1 where the layer is screened, else 0
    pub kh: [u64; LAYER_PLACES], // horizontal conductivity, nm/s
    pub kv: [u64; LAYER_PLACES], // vertical conductivity, nm/s
    pub storage: [u64; LAYER_PLACES], // layer 1: specific yield, millionths; below: specific storage, 10^-9 per m
    pub columns: u64, // m: how many
    pub radii: [u64; COLUMN_PLACES], // outer radius R_j, mm
    pub well_radius: u64, // R_0 of the well, mm
    pub water_area: u64, // free water area W, mm²
    pub intake: u64, // intake depth p, mm
    pub friction: u64, // friction factor, millionths
    pub loss_count: u64, // how many screen loss coefficients
    pub loss_coefficients: [u64; COEFFICIENT_PLACES], // screen loss coefficients, millionths
}

fn between(lo: u64, hi: u64, n: u64) -> bool
    ensures { result ≡ (leb lo n && leb n hi) }
{
    (lo <= n) & (n <= hi)
}

pub fn layer_count(n: u64) -> bool
    ensures { result ≡ layer_count n }
{
    between(2, LAYER_PLACES as u64, n)
}

pub fn column_count(n: u64) -> bool
    ensures { result ≡ column_count n }
{
    between(2, COLUMN_PLACES as u64, n)
}

pub fn coefficient_count(n: u64) -> bool
    ensures { result ≡ coefficient_count n }
{
    n <= COEFFICIENT_PLACES as u64
}

// Storage of layer i: specific yield in the first, specific storage below it.
fn storage_holds(i: usize, storage: u64) -> bool
    ensures { result ≡ storage_holds i storage }
{
    if i == 0 {
        between(1, YIELD_LIMIT, storage)
    } else {
        between(1, SPECIFIC_STORAGE_LIMIT, storage)
    }
}

// The limits of one layer's numbers.
fn layer_holds(i: usize, b: u64, screened: u64, kh: u64, kv: u64, storage: u64) -> bool
    ensures { result ≡ layer_holds i b screened kh kv storage }
{
    between(1, THICKNESS_LIMIT, b)
        & (screened <= 1)
        & (kh <= CONDUCTIVITY_LIMIT)
        & (kv <= CONDUCTIVITY_LIMIT)
        & storage_holds(i, storage)
}

// The limits of every layer's numbers.
fn layers_hold(site: Site) -> bool
    requires { counts_hold site ≡ true }
    ensures { result ≡ layers_hold site }
{
    for i in 0..site.layers as usize {
        if !layer_holds(
            i,
            site.thickness[i],
            site.screened[i],
            site.kh[i],
            site.kv[i],
            site.storage[i],
        ) {
            return false;
        }
    }
    true
}

// Whether each number is at most `limit`.
fn at_most(numbers: &[u64], limit: u64) -> bool
    ensures { result ≡ list_all (λ x. leb x limit) numbers.now }
{
    numbers.iter().all(|x| *x <= limit)
}

// The limits of the well's numbers.
fn well_holds(radius: u64, area: u64, intake: u64, friction: u64) -> bool
    ensures { result ≡ (well_radius_limits radius && water_area_limits area && intake_limits intake && friction_limits friction) }
{
    between(WELL_RADIUS_LEAST, WELL_RADIUS_LIMIT, radius)
        & between(1, WATER_AREA_LIMIT, area)
        & between(1, INTAKE_LIMIT, intake)
        & (friction <= FRICTION_LIMIT)
}

// The limit of every column's radius.
fn columns_hold(site: Site) -> bool
    requires { counts_hold site ≡ true }
    ensures { result ≡ columns_hold site }
{
    at_most(&site.radii[..site.columns as usize], RADIUS_LIMIT)
}

// The limit of every screen loss coefficient.
fn coefficients_hold(site: Site) -> bool
    requires { counts_hold site ≡ true }
    ensures { result ≡ screen_loss_holds site }
{
    at_most(
        &site.loss_coefficients[..site.loss_count as usize],
        COEFFICIENT_LIMIT,
    )
}

// The limits of 3.
pub fn numbers_hold(site: Site) -> bool
    requires { counts_hold site ≡ true }
    ensures { result ≡ numbers_hold site }
{
    let well = well_holds(
        site.well_radius,
        site.water_area,
        site.intake,
        site.friction,
    );
    layers_hold(site) & columns_hold(site) & well & coefficients_hold(site)
}

// Rule 4 for a column: R_(j-1), R_j and R_(j+1). At the well, where u_0 = 2R_0, R_0 stands for the radius before it.
fn column_rises(previous: u64, radius: u64, next: u64) -> bool
    requires { (radius_limits previous ≡ true) × (radius_limits radius ≡ true) × (radius_limits next ≡ true) }
    ensures { result ≡ (ltb radius next && leb (radius + next) (midsection_factor * (previous + radius))) }
{
    (radius < next) & (radius + next <= MIDSECTION_FACTOR * (previous + radius))
}

// Rule 4, from the well to the last column.
pub fn radii_hold(site: Site) -> bool
    requires { (counts_hold site ≡ true) × (numbers_hold site ≡ true) }
    ensures { result ≡ radii_hold site }
{
    let mut previous = site.well_radius;
    let mut radius = site.well_radius;
    // No plainer over the radii themselves: the proof has no length of an array of a struct that is passed by value.
    for j in 0..site.columns as usize {
        let next = site.radii[j];
        if !column_rises(previous, radius, next) {
            return false;
        }
        previous = radius;
        radius = next;
    }
    true
}

// The topmost screened layer, if there is one.
fn topmost_screened(site: Site) -> Option<usize>
    requires { counts_hold site ≡ true }
    ensures { result ≡ (if ltb (screen_layer site) site.layers then Some (screen_layer site) else None) }
{
    for i in 0..site.layers as usize {
        if site.screened[i] == 1 {
            return Some(i);
        }
    }
    None
}

// The depth of the top of a layer, mm.
pub fn layer_top(site: Site, layer: usize) -> u64
    requires { (counts_hold site ≡ true) × (numbers_hold site ≡ true) × (layer ≤ site.layers) }
    ensures { (result ≡ layer_top site.thickness layer) × (result ≤ 1000000 * layer) }
{
    site.thickness[..layer].iter().sum()
}

// Rule 5.
pub fn screen_holds(site: Site) -> bool
    requires { (counts_hold site ≡ true) × (numbers_hold site ≡ true) }
    ensures { result ≡ screen_holds site }
{
    match topmost_screened(site) {
        Some(layer) => (site.screened[0] != 1) & (site.intake < layer_top(site, layer)),
        None => false,
    }
}
