// The formulas of head loss on numbers, in binary64, each operation rounded once in the order that document 01 writes.
// Lengths are mm, areas mm², water nl, dt µs, flows l/s, velocities m/s, head losses m.
#![tactic(auto)]

ghost use Rattle.std.specs.Prelude.{◌≡◌, ◌^◌, ◌≤◌, pos, neg_ℤ, nat_abs};
ghost use Rattle.limits.specs.Limits.{length_limit, total_limit};
ghost use Rattle.hydraulics.specs.Hydraulics.{float, Exactly, absolute, millionths, inflow_of, wall_velocity, law_of, screen_loss, velocity, pipe_loss};

// The screen law: none, linear c1, or linear and square c1, c2.
#[derive(Clone, Copy)]
pub enum ScreenLaw {
    None,
    Linear(f64),
    Square(f64, f64),
}

// A whole number made a float, exactly.
fn whole(n: u64) -> f64
    requires { n ≤ 2 ^ 53 }
    ensures { (result ≡ float (pos n)) × Exactly (pos n) result }
{
    n as f64
}

// The same with a sign.
fn signed(n: i64) -> f64
    requires { nat_abs n ≤ 2 ^ 53 }
    ensures { (result ≡ float n) × Exactly n result }
{
    n as f64
}

// By comparison and negation, not x.abs(): document 01 names this form, and it keeps a zero's sign.
fn absolute(x: f64) -> f64
    ensures { result ≡ absolute x }
{
    if x < 0.0 { -x } else { x }
}

fn millionths(n: u64) -> f64
    requires { n ≤ 2 ^ 53 }
    ensures { result ≡ millionths n }
{
    whole(n) / 1000000.0
}

// e of a layer from the water that runs from the well into it.
pub fn inflow(from_well: i64, dt: u64) -> f64
    requires { (nat_abs from_well ≤ total_limit) × (dt ≤ length_limit) }
    ensures { result ≡ inflow_of (neg_ℤ from_well) dt }
{
    signed((-from_well) / 1000) / whole(dt)
}

// y, of the inflow over a layer of a thickness.
pub fn wall_velocity(e: f64, thickness: u64, radius: u64) -> f64
    requires { (thickness ≤ 1000000) × (radius ≤ 5000) }
    ensures { result ≡ wall_velocity e thickness radius }
{
    (e * 1000.0) / whole(thickness * radius)
}

pub fn screen_law(count: u64, n1: u64, n2: u64) -> ScreenLaw
    requires { (1 ≤ count → n1 ≤ 2 ^ 53) × (2 ≤ count → n2 ≤ 2 ^ 53) }
    ensures { result ≡ law_of count n1 n2 }
{
    match count {
        0 => ScreenLaw::None,
        1 => ScreenLaw::Linear(millionths(n1)),
        _ => ScreenLaw::Square(millionths(n1), millionths(n2)),
    }
}

pub fn screen_loss(law: ScreenLaw, y: f64) -> f64
    ensures { result ≡ screen_loss law y }
{
    match law {
        ScreenLaw::None => 0.0,
        ScreenLaw::Linear(c1) => c1 * y,
        ScreenLaw::Square(c1, c2) => {
            let size = absolute(y);
            c1 * y + (c2 * y) * size
        }
    }
}

// v in the pipe, of the sum of inflows.
pub fn velocity(sum: f64, radius: u64) -> f64
    requires { radius ≤ 5000 }
    ensures { result ≡ velocity sum radius }
{
    (sum * 1000.0) / whole(geometry::area(radius, 0))
}

// The pipe loss over half of `distance`, from velocity v to velocity `above`.
pub fn pipe_loss(friction: u64, distance: u64, radius: u64, v: f64, above: f64) -> f64
    requires { (friction ≤ 1000000) × (distance ≤ 2 ^ 53) × (radius ≤ 5000) }
    ensures { result ≡ pipe_loss (millionths friction) (pos distance) radius v above }
{
    let f = millionths(friction);
    let size = absolute(v);
    ((f * (whole(distance) / whole(4 * radius))) * (v * size)) / 19.6133
        + (above * above - v * v) / 9.80665
}
