// Losses and the inflow total after a step, from the drawdowns and the losses at its start: arrays by slot, lent and filled.
// C is in 10^-12 m²/s, D in µm, V and water in nl, times in µs.
#![tactic(auto)]

ghost use Rattle.std.specs.Prelude.{◌≡◌, [], ◌∷◌, ℕ, ◌+◌, ◌*◌, ◌-◌, ◌%◌, ◌≤◌, ◌<◌, pos, neg_ℤ, nat_abs, ◌+ℤ◌, ◌-ℤ◌, leb, get_or};
ghost use Rattle.laws.specs.Span.{span, spans};
ghost use Rattle.laws.specs.Lists.{ifℤ};
ghost use Rattle.laws.specs.Sums.{Room};
ghost use Rattle.limits.specs.Limits.{rate_limit, length_limit, total_limit, drawdown_limit};
ghost use Rattle.step_flows.specs.Flows.{screen_at};
ghost use Rattle.step_losses.specs.Losses.{water_in, left, changed, Within, swept_of, Sweepable};

use limits::{CELL_PLACES, COLUMN_PLACES, LAYER_PLACES};
use step_flows::crossing;

// Water to slot k from the layer above; the top layer, whose first slot is 0, has none.
fn upper(down: &[i64; CELL_PLACES], start: usize, k: usize) -> i64
    requires { (k < 1000) × (start ≡ 0 → k < 50) × (0 < start → 50 ≤ k) }
    ensures { result ≡ ifℤ (leb 50 k) (get_or down.now (k - 50) (pos 0)) }
{
    if start == 0 {
        0
    } else {
        down[k - COLUMN_PLACES]
    }
}

// V of a place with what leaves it and without what comes to it.
fn changed(v: i64, right: i64, lower: i64, left: i64, upper: i64) -> i64
    requires { Room total_limit v (right ∷ lower ∷ neg_ℤ left ∷ neg_ℤ upper ∷ []) }
    ensures { result ≡ v +ℤ right +ℤ lower -ℤ left -ℤ upper }
{
    v + right + lower - left - upper
}

// What the water of a step's faces goes by, by slot.
#[derive(Drop)]
pub struct Faces {
    pub depths: [u64; CELL_PLACES], // D at the start of the step
    pub conductances: [u64; CELL_PLACES], // C in use toward the next column
    pub down: [i64; CELL_PLACES], // water to the layer below
}

// V after the step of `width` cells of a layer, the first of them in slot `start`, to which water comes `from_well`; what V was is kept in
// `before`. It gives the water of the layer's last face, that with the last column.
fn row(
    faces: &Faces,
    start: usize,
    width: usize,
    from_well: i64,
    dt: u64,
    losses: &mut [i64; CELL_PLACES],
    before: &mut [i64; CELL_PLACES],
) -> i64
    requires start_value { (start % 50 ≡ 0) × (width < 50) × (start + width < 1000) × (dt ≤ length_limit) }
    requires by_index { (k : ℕ) → get_or faces.now.depths k 0 ≤ drawdown_limit }
    requires by_index_2 { (n : ℕ) → n < width → Within (water_in faces.now.conductances faces.now.depths faces.now.down dt (λ i. from_well)) losses.old (start + n) }
    ensures value { result ≡ left (water_in faces.now.conductances faces.now.depths faces.now.down dt (λ i. from_well)) (start + width) }
    ensures losses_after { losses.new ≡ span start width (changed (water_in faces.now.conductances faces.now.depths faces.now.down dt (λ i. from_well)) losses.old) losses.old }
    ensures before_after { before.new ≡ span start width (λ k. get_or losses.old k (pos 0)) before.old }
{
    let mut left = from_well;
    for n in 0..width {
        let k = start + n;
        let right = crossing(
            faces.conductances[k],
            faces.depths[k],
            faces.depths[k + 1],
            dt,
        );
        let v = losses[k];
        before[k] = v;
        losses[k] = changed(v, right, faces.down[k], left, upper(&faces.down, start, k));
        left = right;
    }
    left
}

// V of the well and the inflow total after the step.
#[derive(Clone, Copy)]
pub struct Swept {
    pub well_loss: i64,
    pub inflow: i64,
}

// V of each cell after the step, in `layers` layers and `stored` columns, and in `before` what it was; the other slots stay. `well` is D of the
// well at the step's start, and `well_loss` its V with what is pumped.
pub fn sweep(
    screen: &[u64; LAYER_PLACES],
    faces: &Faces,
    layers: usize,
    stored: usize,
    well: u64,
    well_loss: i64,
    inflow: i64,
    dt: u64,
    losses: &mut [i64; CELL_PLACES],
    before: &mut [i64; CELL_PLACES],
) -> Swept
    requires layers_bound { (layers ≤ 20) × (1 ≤ stored) × (stored ≤ 49) × (well ≤ drawdown_limit) × (dt ≤ length_limit) }
    requires by_index { (k : ℕ) → get_or faces.now.depths k 0 ≤ drawdown_limit }
    requires sweepable { Sweepable (water_in faces.now.conductances faces.now.depths faces.now.down dt (screen_at screen.now well faces.now.depths dt)) losses.old layers stored well_loss inflow }
    ensures value { result ≡ swept_of (water_in faces.now.conductances faces.now.depths faces.now.down dt (screen_at screen.now well faces.now.depths dt)) layers stored well_loss inflow }
    ensures losses_after { losses.new ≡ spans stored layers (changed (water_in faces.now.conductances faces.now.depths faces.now.down dt (screen_at screen.now well faces.now.depths dt)) losses.old) losses.old }
    ensures before_after { before.new ≡ spans stored layers (λ k. get_or losses.old k (pos 0)) before.old }
{
    let mut loss = well_loss;
    let mut total = inflow;
    for i in 0..layers {
        let start = COLUMN_PLACES * i;
        let from_well = crossing(screen[i], well, faces.depths[start], dt);
        loss += from_well;
        total -= row(faces, start, stored, from_well, dt, losses, before);
    }
    Swept {
        well_loss: loss,
        inflow: total,
    }
}

// V of the well with what is pumped: ml/s × µs is nl.
pub fn with_pumped(v: i64, rate: u64, dt: u64) -> i64
    requires { (rate ≤ rate_limit) × (dt ≤ length_limit) × (nat_abs v ≤ total_limit) }
    ensures { result ≡ v +ℤ pos (rate * dt) }
{
    v + (rate * dt) as i64
}
