// The water of one face between two ends that a reader names, for a step not taken.
#![tactic(auto)]

ghost use Rattle.std.specs.Prelude.{◌≡◌, true, ℕ, ◌*◌, ◌-◌, ◌^◌, ◌≤◌, ◌<◌, pos, get_or};
ghost use Rattle.limits.specs.Limits.{length_limit};
ghost use Rattle.network.specs.Network.{flow, stable};
ghost use Rattle.network.specs.Grid.{network_of};
ghost use Rattle.site.specs.Columns.{area_at};
ghost use Rattle.record.specs.Record.{grid_of, state_of};
ghost use Rattle.coefficient_cells.specs.Cells.{down_of};
ghost use Rattle.coefficient_cells.specs.Worked.{InLimits};
ghost use Rattle.validity.specs.Validity.{valid};
ghost use Rattle.step_flows.specs.Flows.{table_c};
ghost use Rattle.readings.specs.Readings.{leads, face_from, flow_of};
ghost use Rattle.read_flow.specs.Ends.{in_slots, in_use_from, InLayer, TableFits};
ghost use Rattle.read_flow.specs.Turned.{opposite};

use coefficient_cells::areas_of;
use read_drawdown::drawdown_at;
use readings::Place;
use record::Record;
use refusals::Refusal;
use site::Site;

// Whether a C rule joins one end to the other, in this order: the well to column 1 of a screened layer, a stored cell to the next column or to
// the layer below.
fn leads(site: Site, from: Place, to: Place) -> bool
    requires { (site.layers ≤ 20) × (site.columns ≤ 50) }
    ensures { (q : Record) → q.site ≡ site → result ≡ leads (grid_of q) from to }
{
    let Place::Cell(k, l) = to else {
        return false;
    };
    if !((1 <= k) & (k <= site.layers)) {
        return false;
    }
    let Place::Cell(i, j) = from else {
        return (site.screened[(k - 1) as usize] == 1) & (l == 1);
    };
    if !((1 <= i) & (i <= site.layers) & ((1 <= j) & (j < site.columns))) {
        return false;
    }
    ((k == i) & (l == j + 1)) | ((k == i + 1) & (l == j))
}

// C in use between layers 1 and 2 of column j, from D of its cell in layer 1.
fn column_at_table(site: Site, j: u64, here: u64) -> u64
    requires { InLimits site × (j < site.columns) × (here ≤ 1000 * get_or site.thickness 0 0) × (down_of site 0 j < 2 ^ 64) }
    ensures { pos result ≡ table_c (area_at site j) (get_or site.thickness 0 0) (get_or site.kv 0 0) (get_or site.thickness 1 0) (get_or site.kv 1 0) (pos here) }
{
    let areas = areas_of(site);
    step_flows::at_table(
        areas[j as usize],
        site.thickness[0],
        site.kv[0],
        site.thickness[1],
        site.kv[1],
        here,
    )
}

// C in use of the face that leads from one end to the other, from D at them: reduced between two cells of layer 1, by the water table from layer 1 to
// layer 2. No face leads to the well.
fn in_use(rec: &Record, from: Place, to: Place, here: u64, next: u64) -> u64
    requires in_limits { InLimits rec.now.site × (in_slots from ≡ true) × (in_slots to ≡ true) × InLayer rec.now.site from here × InLayer rec.now.site to next }
    requires table_fits { TableFits rec.now.site from }
    ensures { pos result ≡ in_use_from rec.now.site rec.now.screen rec.now.horizontal rec.now.vertical from to (pos here) (pos next) }
{
    let Place::Cell(k, _) = to else {
        return 0;
    };
    let Place::Cell(i, j) = from else {
        return rec.screen[(k - 1) as usize];
    };
    let first = readings::slot_of(i, j);
    if k != i {
        if 1 < i {
            return rec.vertical[first];
        }
        return column_at_table(rec.site, j, here);
    }
    if i != 1 {
        return rec.horizontal[first];
    }
    let thickness = rec.site.thickness[0];
    step_flows::reduced(
        rec.horizontal[first],
        here,
        next,
        thickness,
        2000 * thickness,
    )
}

// The water of the face that leads from one end to the other, nl.
fn ahead(rec: &Record, from: Place, to: Place, dt: u64) -> i64
    requires { (valid rec.now ≡ true) × (leads (grid_of rec.now) from to ≡ true) × (dt ≤ length_limit) × (stable (network_of (grid_of rec.now)) dt ≡ true) }
    ensures { result ≡ flow (network_of (grid_of rec.now)) (state_of rec.now).losses dt (face_from (grid_of rec.now) from to) }
{
    let here = drawdown_at(rec, from);
    let next = drawdown_at(rec, to);
    let c = in_use(rec, from, to, here, next);
    step_flows::crossing(c, here, next, dt)
}

// The water that would cross from one end to the other in dt µs, nl: that of the face, with the other sign where it leads the other way.
pub fn face_flow(record: Record, from: Place, to: Place, dt: u64) -> Result<i64, Refusal>
    ensures { result ≡ flow_of «record» from to dt }
{
    if !validity::valid(record) {
        return Err(Refusal::Record);
    }
    let forth = leads(record.site, from, to);
    let back = leads(record.site, to, from);
    let out = step_conditions::length_out(dt);
    if !(forth | back) {
        return Err(Refusal::NoSuch);
    }
    if out {
        return Err(Refusal::RateOrLength);
    }
    if !step_stability::stable(record, dt) {
        return Err(Refusal::Unstable);
    }
    if forth {
        return Ok(ahead(&record, from, to, dt));
    }
    let water = ahead(&record, to, from, dt);
    let turned = -water;
    Ok(turned)
}

// A theorem, with nothing to run: named the other way round, two ends give the same number with the other sign, or the same refusal.
pub fn ends_turned()
    ensures { (q : Record) (a b : Place) (dt : ℕ) → flow_of q b a dt ≡ opposite (flow_of q a b dt) }
{}
