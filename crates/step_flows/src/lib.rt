// C in use and the water of the faces of a step, from the drawdowns at its start: arrays by slot, lent and filled.
// C is in 10^-12 m²/s, D in µm, V and water in nl, times in µs, thicknesses in mm, areas in mm², Kv in nm/s.
#![tactic(auto)]

ghost use Rattle.std.specs.Prelude.{◌≡◌, map, ℕ, ◌+◌, ◌*◌, ◌≤◌, ◌<◌, ◌^◌, pos, nat_abs, get_or};
ghost use Rattle.laws.specs.Fill.{fill};
ghost use Rattle.laws.specs.Span.{span, spans};
ghost use Rattle.limits.specs.Limits.{length_limit, total_limit, drawdown_limit};
ghost use Rattle.geometry.specs.Geometry.{from_table};
ghost use Rattle.network.specs.Network.{water};
ghost use Rattle.step_flows.specs.Flows.{reduced_c, reduced_at, table_c, Tabled, flow_at, table_flow_at, down_flow_at};

use geometry::from_table;
use limits::{CELL_PLACES, COLUMN_PLACES};
use words::divide::quotient_word;

// C in use of a horizontal face of layer 1; `divisor` is 2000×b_1.
pub fn reduced(c: u64, here: u64, next: u64, thickness: u64, divisor: u64) -> u64
    requires { (0 < divisor) × (divisor ≡ 2000 * thickness) × (here ≤ 1000 * thickness) × (next ≤ 1000 * thickness) }
    ensures { pos result ≡ reduced_c thickness c (pos here) (pos next) }
{
    let full = 1000 * thickness;
    quotient_word(c, (full - here) + (full - next), divisor)
}

// C in use of the horizontal faces of layer 1, which are those of the first `faces` slots; the other slots stay.
pub fn in_use(
    horizontal: &[u64; CELL_PLACES],
    depths: &[u64; CELL_PLACES],
    thickness: u64,
    faces: usize,
    conductances: &mut [u64; CELL_PLACES],
)
    requires faces_bound { (faces ≤ 49) × (0 < thickness) × (2000 * thickness < 2 ^ 64) }
    requires by_index { (k : ℕ) → k ≤ faces → get_or depths.now k 0 ≤ 1000 * thickness }
    ensures { map pos conductances.new ≡ fill faces (reduced_at thickness horizontal.now depths.now) (map pos conductances.old) }
{
    let divisor = 2000 * thickness;
    for k in 0..faces {
        conductances[k] = reduced(horizontal[k], depths[k], depths[k + 1], thickness, divisor);
    }
}

// C in use of a face between layers 1 and 2 over an area, where layer 1 is at drawdown `here`. It is at most the value at s = 0, and so over no word.
pub fn at_table(a: u64, thickness: u64, kv1: u64, b2: u64, kv2: u64, here: u64) -> u64
    requires a_bound { (a ≤ 2 ^ 44) × (thickness ≤ 1000000) × (kv1 ≤ 100000000) × (0 < b2) × (b2 ≤ 1000000) × (kv2 ≤ 100000000) }
    requires here_bound { (here ≤ 1000 * thickness) × (from_table a kv1 b2 kv2 0 < 2 ^ 64) }
    ensures { pos result ≡ table_c a thickness kv1 b2 kv2 (pos here) }
{
    from_table(a, kv1, b2, kv2, 1000 * thickness - here).unwrap()
}

// Water that crosses a face from drawdown `here` to drawdown `next` in dt.
pub fn crossing(c: u64, here: u64, next: u64, dt: u64) -> i64
    requires here_le_drawdown_limit { (here ≤ drawdown_limit) × (next ≤ drawdown_limit) × (dt ≤ length_limit) }
    requires dt_bound { nat_abs (water (pos c) (pos here) (pos next) dt) ≤ total_limit }
    ensures { result ≡ water (pos c) (pos here) (pos next) dt }
{
    if here < next {
        quotient_word(c, (next - here) * dt, 1_000_000_000_000) as i64
    } else {
        -(quotient_word(c, (here - next) * dt, 1_000_000_000_000) as i64)
    }
}

// Water from `width` cells of a layer, the first of them in slot `start`, to the layer below.
fn down_row(
    vertical: &[u64; CELL_PLACES],
    depths: &[u64; CELL_PLACES],
    start: usize,
    width: usize,
    dt: u64,
    down: &mut [i64; CELL_PLACES],
)
    requires width_bound { (start + width + 50 ≤ 1000) × (dt ≤ length_limit) }
    requires by_index { (k : ℕ) → get_or depths.now k 0 ≤ drawdown_limit }
    requires by_index_2 { (n : ℕ) → n < width → nat_abs (flow_at vertical.now depths.now 50 dt (start + n)) ≤ total_limit }
    ensures { down.new ≡ span start width (flow_at vertical.now depths.now 50 dt) down.old }
{
    for n in 0..width {
        let k = start + n;
        down[k] = crossing(vertical[k], depths[k], depths[k + COLUMN_PLACES], dt);
    }
}

// Water from the first `stored` cells of layer 1 to layer 2.
fn table_row(
    areas: &[u64; COLUMN_PLACES],
    depths: &[u64; CELL_PLACES],
    thickness: u64,
    kv1: u64,
    b2: u64,
    kv2: u64,
    stored: usize,
    dt: u64,
    down: &mut [i64; CELL_PLACES],
)
    requires stored_bound { (stored ≤ 49) × (dt ≤ length_limit) × Tabled thickness kv1 b2 kv2 areas.now stored }
    requires by_index { ((k : ℕ) → get_or depths.now k 0 ≤ drawdown_limit) × ((k : ℕ) → k < stored → get_or depths.now k 0 ≤ 1000 * thickness) }
    requires by_index_2 { (k : ℕ) → k < stored → nat_abs (table_flow_at thickness kv1 b2 kv2 areas.now depths.now dt k) ≤ total_limit }
    ensures { down.new ≡ fill stored (table_flow_at thickness kv1 b2 kv2 areas.now depths.now dt) down.old }
{
    for k in 0..stored {
        let here = depths[k];
        let below = depths[k + COLUMN_PLACES];
        let c = at_table(areas[k + 1], thickness, kv1, b2, kv2, here);
        down[k] = crossing(c, here, below, dt);
    }
}

// Water from each cell of the first `layers` layers, in `stored` columns, to the layer below; the other slots stay.
pub fn down_flows(
    areas: &[u64; COLUMN_PLACES],
    vertical: &[u64; CELL_PLACES],
    depths: &[u64; CELL_PLACES],
    thickness: u64,
    kv1: u64,
    b2: u64,
    kv2: u64,
    layers: usize,
    stored: usize,
    dt: u64,
    down: &mut [i64; CELL_PLACES],
)
    requires le_layers { (1 ≤ layers) × (layers ≤ 19) × (stored ≤ 49) × (dt ≤ length_limit) × Tabled thickness kv1 b2 kv2 areas.now stored }
    requires by_index { ((k : ℕ) → get_or depths.now k 0 ≤ drawdown_limit) × ((k : ℕ) → k < stored → get_or depths.now k 0 ≤ 1000 * thickness) }
    requires by_index_2 { (k : ℕ) → k < 50 * layers → nat_abs (down_flow_at thickness kv1 b2 kv2 areas.now vertical.now depths.now stored dt k) ≤ total_limit }
    ensures { down.new ≡ spans stored layers (down_flow_at thickness kv1 b2 kv2 areas.now vertical.now depths.now stored dt) down.old }
{
    table_row(areas, depths, thickness, kv1, b2, kv2, stored, dt, down);
    for i in 1..layers {
        down_row(vertical, depths, COLUMN_PLACES * i, stored, dt, down);
    }
}
