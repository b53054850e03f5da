// Head loss of one screened layer for a step not taken, in binary64, each operation rounded once in the order that document 01 writes.
// Lengths are mm, areas mm², water nl, dt µs, flows l/s, velocities m/s, head losses m.
#![tactic(auto)]

ghost use Rattle.std.specs.Prelude.{◌≡◌, ◌&&◌, ℕ, ◌-◌, ◌<◌, ◌≤◌, leb};
ghost use Rattle.laws.specs.Fill.{fill};
ghost use Rattle.limits.specs.Limits.{length_limit, drawdown_limit};
ghost use Rattle.site.specs.Site.{is_screened};
ghost use Rattle.pipe.specs.Asked.{e_of, Screened};
ghost use Rattle.read_head_loss.specs.HeadLoss.{losses_at, head_loss_of};
ghost use Rattle.read_head_loss.specs.Slots.{inflow_at, no_inflows, SmallAt};

use hydraulics::{inflow, screen_law, screen_loss, wall_velocity};
use limits::{COLUMN_PLACES, LAYER_PLACES};
use pipe::pipe_loss_at;
use record::Record;
use refusals::Refusal;
use site::Site;

// What the reading gives for a layer.
#[derive(Clone, Copy)]
pub struct Losses {
    pub inflow: f64, // e, into the well, l/s
    pub screen_loss: f64, // m
    pub pipe_loss: f64, // m
}

// e of layer i, whose column 1 stands in slot 50×i, at a drawdown of the well.
fn layer_inflow(rec: &Record, i: usize, well: u64, dt: u64) -> f64
    requires { (i < 20) × (well ≤ drawdown_limit) × (dt ≤ length_limit) × SmallAt rec.now.screen rec.now.storages rec.now.losses well dt i }
    ensures { result ≡ inflow_at rec.now.screen rec.now.storages rec.now.losses well dt i }
{
    let k = COLUMN_PLACES * i;
    let depth = step_drawdowns::drawdown(rec.losses[k], rec.storages[k]);
    inflow(step_flows::crossing(rec.screen[i], well, depth, dt), dt)
}

// e of each layer.
fn inflows(rec: &Record, well: u64, dt: u64) -> [f64; LAYER_PLACES]
    requires layers_bound { (rec.now.site.layers ≤ 20) × (well ≤ drawdown_limit) × (dt ≤ length_limit) }
    requires by_index { (i : ℕ) → i < rec.now.site.layers → SmallAt rec.now.screen rec.now.storages rec.now.losses well dt i }
    ensures { result ≡ fill rec.now.site.layers (inflow_at rec.now.screen rec.now.storages rec.now.losses well dt) no_inflows }
{
    let mut out = [0.0; LAYER_PLACES];
    for i in 0..rec.site.layers as usize {
        out[i] = layer_inflow(rec, i, well, dt);
    }
    out
}

fn losses_at(site: Site, inflows: &[f64; LAYER_PLACES], layer: usize) -> Losses
    requires { Screened site layer }
    ensures { result ≡ losses_at site (e_of inflows.now) layer }
{
    let e = inflows[layer];
    let law = screen_law(
        site.loss_count,
        site.loss_coefficients[0],
        site.loss_coefficients[1],
    );
    let y = wall_velocity(e, site.thickness[layer], site.well_radius);
    Losses {
        inflow: e,
        screen_loss: screen_loss(law, y),
        pipe_loss: pipe_loss_at(site, inflows, layer),
    }
}

// Whether a layer, counted from 1, is one of the layers and is screened.
#[tactic(auto, unfolding(site::specs::Site::is_screened))]
fn screened_layer(site: &Site, layer: u64) -> bool
    requires { site.now.layers ≤ 20 }
    ensures { result ≡ (leb 1 layer && leb layer site.now.layers && is_screened site.now.screened (layer - 1)) }
{
    1 <= layer && layer <= site.layers && site.screened[(layer - 1) as usize] == 1
}

// Inflow, screen loss and pipe loss of a layer, which counts from 1, for a step of dt not taken.
pub fn head_loss(record: Record, layer: u64, dt: u64) -> Result<Losses, Refusal>
    ensures { result ≡ head_loss_of «record» layer dt }
{
    if !validity::valid(record) {
        return Err(Refusal::Record);
    }
    let there = screened_layer(&record.site, layer);
    let out = step_conditions::length_out(dt);
    if !there {
        return Err(Refusal::NoSuch);
    }
    if out {
        return Err(Refusal::RateOrLength);
    }
    if !step_stability::stable(record, dt) {
        return Err(Refusal::Unstable);
    }
    let well = step_drawdowns::drawdown(record.well_loss, record.well_storage);
    let es = inflows(&record, well, dt);
    Ok(losses_at(record.site, &es, (layer - 1) as usize))
}
