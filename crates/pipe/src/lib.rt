// The pipe of a well, layer by layer: the flow in it, its velocity and its head loss, in binary64 in the order that document 01 writes.
// Lengths are mm, flows l/s, velocities m/s, head losses m.
#![tactic(auto)]

ghost use Rattle.std.specs.Prelude.{◌≡◌, true, ◌<◌, ◌≤◌, pos};
ghost use Rattle.site.specs.Site.{is_screened};
ghost use Rattle.pipe.specs.Pipe.{screened_up_to, added, velocity_at, twice_centre, upward_from, twice_distance, velocity_above, pipe_loss_at};
ghost use Rattle.pipe.specs.Asked.{e_of, Screened};

use hydraulics::{pipe_loss, velocity};
use limits::LAYER_PLACES;
use site::Site;

// The next screened layer above a layer, if there is one; above the last layer the deepest one.
fn upward_from(screened: &[u64; LAYER_PLACES], layer: usize) -> Option<usize>
    requires { layer ≤ 20 }
    ensures { result ≡ upward_from (is_screened screened.now) layer }
{
    screened[..layer].iter().rposition(|s| *s == 1)
}

// E: e of the screened layers added from the deepest one up to `layer`, which is one.
fn added(
    inflows: &[f64; LAYER_PLACES],
    screened: &[u64; LAYER_PLACES],
    layers: usize,
    layer: usize,
) -> f64
    requires { (layers ≤ 20) × (layer < layers) × (is_screened screened.now layer ≡ true) }
    ensures { result ≡ added (e_of inflows.now) (screened_up_to (is_screened screened.now) layer layers) }
{
    let deepest = upward_from(screened, layers).unwrap_or(layer);
    let mut sum = inflows[deepest];
    for k in (layer..deepest).rev() {
        if screened[k] == 1 {
            sum += inflows[k];
        }
    }
    sum
}

// v at a screened layer.
fn velocity_at(site: Site, inflows: &[f64; LAYER_PLACES], layer: usize) -> f64
    requires { Screened site layer }
    ensures { result ≡ velocity_at site (e_of inflows.now) layer }
{
    velocity(
        added(inflows, &site.screened, site.layers as usize, layer),
        site.well_radius,
    )
}

// Twice the depth of the centre of a screened layer.
fn twice_centre(site: Site, layer: usize) -> u64
    requires { Screened site layer }
    ensures { (result ≡ twice_centre site.thickness layer) × (result ≤ 40000000) }
{
    2 * site::layer_top(site, layer) + site.thickness[layer]
}

// Twice the distance from there up to where the pipe leads.
fn twice_distance(site: Site, layer: usize, up: Option<usize>) -> u64
    requires { Screened site layer × (upward_from (is_screened site.screened) layer ≡ up) }
    ensures { (pos result ≡ twice_distance site layer up) × (result ≤ 40000000) }
{
    let centre = twice_centre(site, layer);
    match up {
        None => centre - 2 * site.intake,
        Some(k) => centre - twice_centre(site, k),
    }
}

// The pipe loss from a screened layer up to the next one, or above the topmost one to the intake.
pub fn pipe_loss_at(site: Site, inflows: &[f64; LAYER_PLACES], layer: usize) -> f64
    requires { Screened site layer }
    ensures { result ≡ pipe_loss_at site (e_of inflows.now) layer }
{
    let up = upward_from(&site.screened, layer);
    let distance = twice_distance(site, layer, up);
    let v = velocity_at(site, inflows, layer);
    let above = velocity_at(site, inflows, up.unwrap_or(layer));
    pipe_loss(site.friction, distance, site.well_radius, v, above)
}
