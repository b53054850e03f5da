// Drawdowns, by a plain quotient or, in a step that may be one of many, by a product with a multiplier of S that is worked out once.
// V is in nl, S in nl per m, D in µm.
#![tactic(auto)]

ghost use Rattle.std.specs.Prelude.{◌≡◌, map, ℕ, ◌+◌, ◌*◌, ◌/◌, ◌≤◌, ◌<◌, ◌^◌, pos, ◌≤ℤ◌, get_or, replicate};
ghost use Rattle.laws.specs.Span.{span, spans};
ghost use Rattle.limits.specs.Limits.{drawdown_limit};
ghost use Rattle.step_drawdowns.specs.Drawdowns.{depth_of, depth_at, multiplier_of, Stands, Multiplied};

use limits::{CELL_PLACES, COLUMN_PLACES};
use words::divide::quotient_word;
use words::multiply::{difference, high_word};

// D of a place that has lost v from the storage s, by a plain quotient.
pub fn drawdown(v: i64, s: u64) -> u64
    requires { (pos 0 ≤ℤ v) × (depth_of v s ≤ℤ pos drawdown_limit) }
    ensures { pos result ≡ depth_of v s }
{
    if s == 0 {
        0
    } else {
        quotient_word(v as u64, 1_000_000, s)
    }
}

// The multiplier of a storage, 10^6 × 2^64 / S; 0 for one up to 10^6, where it would pass a word.
// no plainer as an Option: 0 stands for none, so that an array of multipliers has one word a slot
pub fn multiplier(s: u64) -> u64
    ensures { Stands result s }
{
    if s <= 1_000_000 {
        0
    } else {
        // 10^6 × 2^32 times 2^32
        quotient_word(4_294_967_296_000_000, 4_294_967_296, s)
    }
}

// The multipliers of the first `cells` slots.
pub fn multipliers(storages: &[u64; CELL_PLACES], cells: usize) -> [u64; CELL_PLACES]
    requires { cells ≤ 1000 }
    ensures { Multiplied result storages.now }
{
    let mut out = [0; CELL_PLACES];
    for k in 0..cells {
        out[k] = multiplier(storages[k]);
    }
    out
}

// D of a loss v from a storage s by its multiplier: the product's high word is D or one less, and what it leaves of v × 10^6 tells which.
fn by_multiplier(v: u64, s: u64, multiplier: u64) -> u64
    requires { (v < 2 ^ 63) × (10 ^ 6 < s) × (s < 2 ^ 63) × (multiplier ≡ multiplier_of s) }
    ensures { result ≡ v * 10 ^ 6 / s }
{
    let low = high_word(v, multiplier);
    let rest = difference(v, 1_000_000, low, s);
    if s <= rest { low + 1 } else { low }
}

// D of a place that has lost v from the storage s: by its multiplier, or by a plain quotient where that is 0.
pub fn drawdown_by(v: i64, s: u64, multiplier: u64) -> u64
    requires { (pos 0 ≤ℤ v) × (depth_of v s ≤ℤ pos drawdown_limit) × (s < 2 ^ 63) × Stands multiplier s }
    ensures { pos result ≡ depth_of v s }
{
    if multiplier == 0 {
        drawdown(v, s)
    } else {
        by_multiplier(v as u64, s, multiplier)
    }
}

// D of `width` cells of a layer, the first of them in slot `start`.
fn row(
    losses: &[i64; CELL_PLACES],
    storages: &[u64; CELL_PLACES],
    multipliers: &[u64; CELL_PLACES],
    start: usize,
    width: usize,
    depths: &mut [u64; CELL_PLACES],
)
    requires width_bound { start + width ≤ 1000 }
    requires by_index { (n : ℕ) → n < width → (pos 0 ≤ℤ get_or losses.now (start + n) (pos 0)) × (depth_at losses.now storages.now (start + n) ≤ℤ pos drawdown_limit) × (get_or storages.now (start + n) 0 < 2 ^ 63) }
    requires multiplied { Multiplied multipliers.now storages.now }
    ensures { map pos depths.new ≡ span start width (depth_at losses.now storages.now) (map pos depths.old) }
{
    for n in 0..width {
        let k = start + n;
        depths[k] = drawdown_by(losses[k], storages[k], multipliers[k]);
    }
}

// D of each cell in `layers` layers and `stored` columns; the other slots stay.
pub fn drawdowns(
    losses: &[i64; CELL_PLACES],
    storages: &[u64; CELL_PLACES],
    multipliers: &[u64; CELL_PLACES],
    layers: usize,
    stored: usize,
    depths: &mut [u64; CELL_PLACES],
)
    requires layers_bound { (layers ≤ 20) × (stored ≤ 50) }
    requires by_index { (k : ℕ) → k < 50 * layers → (pos 0 ≤ℤ get_or losses.now k (pos 0)) × (depth_at losses.now storages.now k ≤ℤ pos drawdown_limit) × (get_or storages.now k 0 < 2 ^ 63) }
    requires multiplied { Multiplied multipliers.now storages.now }
    ensures { map pos depths.new ≡ spans stored layers (depth_at losses.now storages.now) (map pos depths.old) }
{
    for i in 0..layers {
        row(
            losses,
            storages,
            multipliers,
            COLUMN_PLACES * i,
            stored,
            depths,
        );
    }
}

// The same in an array of zeros, each by a plain quotient.
pub fn plain_drawdowns(
    losses: &[i64; CELL_PLACES],
    storages: &[u64; CELL_PLACES],
    layers: usize,
    stored: usize,
) -> [u64; CELL_PLACES]
    requires layers_bound { (layers ≤ 20) × (stored ≤ 50) }
    requires by_index { (k : ℕ) → k < 50 * layers → (pos 0 ≤ℤ get_or losses.now k (pos 0)) × (depth_at losses.now storages.now k ≤ℤ pos drawdown_limit) × (get_or storages.now k 0 < 2 ^ 63) }
    ensures { map pos result ≡ spans stored layers (depth_at losses.now storages.now) (replicate 1000 (pos 0)) }
{
    let mut depths = [0; CELL_PLACES];
    drawdowns(
        losses,
        storages,
        &[0; CELL_PLACES],
        layers,
        stored,
        &mut depths,
    );
    depths
}
