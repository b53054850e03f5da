// The conditions 7, 9, 10 and 11 on a step, each judged by itself on numbers and lent arrays. Their order stands where a step is taken.
#![tactic(auto)]

ghost use Rattle.std.specs.Prelude.{◌≡◌, not, ◌*◌, ◌-◌, ◌<◌, ◌≤◌, pos, ◌≤ℤ◌};
ghost use Rattle.limits.specs.Limits.{rate_limit, length_limit, total_limit, drawdown_limit};
ghost use Rattle.network.specs.Network.{length_out, rate_or_length_out};
ghost use Rattle.validity_drawdowns.specs.Drawdowns.{deeper};
ghost use Rattle.step_conditions.specs.Conditions.{totals_full, Filled, table_within};

use limits::{CELL_PLACES, LENGTH_LIMIT, RATE_LIMIT, TOTAL_LIMIT};
use validity_drawdowns::deeper_than;

// 7, its length part: Δt 0 or over 10^9 µs.
#[tactic(auto, unfolding(network::specs::Network::length_out))]
pub fn length_out(dt: u64) -> bool
    ensures { result ≡ length_out dt }
{
    dt == 0 || LENGTH_LIMIT < dt
}

// 7: rate over 10^7 ml/s, or the length part.
#[tactic(auto, unfolding(network::specs::Network::rate_or_length_out))]
pub fn rate_or_length_out(rate: u64, dt: u64) -> bool
    ensures { result ≡ rate_or_length_out rate dt }
{
    RATE_LIMIT < rate || length_out(dt)
}

// 9: the pumped total, nl, or the time, µs, would pass 4×10^18.
pub fn totals_pass(pumped: u64, time: u64, rate: u64, dt: u64) -> bool
    requires { (pumped ≤ total_limit) × (time ≤ total_limit) × (rate ≤ rate_limit) × (dt ≤ length_limit) }
    ensures { result ≡ totals_full pumped time rate dt }
{
    TOTAL_LIMIT < pumped + rate * dt || TOTAL_LIMIT < time + dt
}

// 10: the well's D passes 1000×p, with the intake p in mm.
pub fn well_too_deep(intake: u64, well_storage: u64, well_loss: i64) -> bool
    requires { (1000 * intake ≤ drawdown_limit) × (0 < well_storage) × (pos 0 ≤ℤ well_loss) }
    ensures { result ≡ deeper (1000 * intake) well_storage well_loss }
{
    deeper_than(1000 * intake, well_storage, well_loss)
}

// 11: a D in layer 1 passes 1000×b_1, with the thickness b_1 in mm.
pub fn table_too_deep(
    columns: usize,
    thickness: u64,
    storages: &[u64; CELL_PLACES],
    losses: &[i64; CELL_PLACES],
) -> bool
    requires { (columns ≤ 50) × (1000 * thickness ≤ drawdown_limit) × Filled (columns - 1) storages.now losses.now }
    ensures { result ≡ not (table_within columns thickness storages.now losses.now) }
{
    (0..columns.saturating_sub(1)).any(|k| deeper_than(1000 * thickness, storages[k], losses[k]))
}
