// Geometry to coefficients, a function for each rule of document 01. What they ask of their callers are the limits of rules 3 and 4.
#![tactic(auto)]

ghost use Rattle.std.specs.Prelude.{◌≡◌, cond, ◌||◌, ℕ, ◌+◌, ◌*◌, ◌/◌, ◌<◌, ◌≤◌, ◌^◌, eqb};
ghost use Rattle.limits.specs.Limits.{midsection_factor};
ghost use Rattle.words.specs.Fitted.{fitted};
ghost use Rattle.geometry.specs.Geometry.{terms, series_logarithm, logarithm_of_three, logarithm, area, horizontal, vertical, from_table, unconfined_storage, confined_storage, well_storage};

use words::divide::{quotient, quotient_word};

// Λ(3q, q) of every q above 0.
const LOGARITHM_OF_THREE: u64 = 1179625948;

// The sum of the terms of a logarithm's series, from z and w.
fn series(z: u64, w: u64) -> u64
    requires { (z ≤ 2 ^ 29) × (w ≤ 2 ^ 28) }
    ensures { (result ≡ terms 16 w 0 z) × (result ≤ 2 ^ 33) }
{
    let mut sum = 0;
    let mut t = z;
    for k in 0..16 {
        sum += t / (2 * k + 1);
        t = t * w / 1073741824;
    }
    sum
}

// Λ(p, q) for p up to 3q, by the series.
fn series_logarithm(p: u64, q: u64) -> u64
    requires { (q < p) × (p ≤ 3 * q) × (p ≤ 4000000) }
    ensures { (result ≡ series_logarithm p q) × (0 < result) × (result ≤ logarithm_of_three) }
{
    let z = (p - q) * 1073741824 / (p + q);
    2 * series(z, z * z / 1073741824)
}

// Λ(p, q). It is above 0, so that it divides.
pub fn logarithm(p: u64, q: u64) -> u64
    requires { (q < p) × (p ≤ midsection_factor * q) × (p ≤ 4000000) }
    ensures { (result ≡ logarithm p q) × (0 < result) }
{
    if 3 * q < p {
        return LOGARITHM_OF_THREE + series_logarithm(p, 3 * q);
    }
    series_logarithm(p, q)
}

// The two cases of Λ meet: at p = 3q the series gives the constant, and the case above it adds 0. And no Λ is over twice the constant. A theorem, and
// no code.
pub fn logarithm_cases()
    ensures { ((q : ℕ) → 0 < q → (series_logarithm (3 * q) q ≡ logarithm_of_three) × (series_logarithm (3 * q) (3 * q) ≡ 0)) × ((p q : ℕ) → q < p → p ≤ midsection_factor * q → logarithm p q ≤ 2359251896) }
{}

// Area of a column between two radii, mm²: below 2^44 for radii in their limits.
#[tactic(auto, using(crate::specs::Laws::area_is, crate::specs::Laws::area_most))]
pub fn area(outer: u64, inner: u64) -> u64
    requires { (inner ≤ outer) × (outer ≤ 2000000) }
    ensures { (result ≡ area outer inner) × (result ≤ 2 ^ 44) }
{
    quotient_word(3373259426, outer * outer - inner * inner, 1073741824)
}

// Horizontal C of a layer between two columns, of which `log` is the logarithm of their midsection radii.
#[tactic(auto, unfolding(crate::specs::Geometry::horizontal))]
pub fn horizontal(b: u64, kh: u64, log: u64) -> Option<u64>
    requires { (b ≤ 1000000) × (kh ≤ 100000000) × (0 < log) }
    ensures { result ≡ fitted (horizontal b kh log) }
{
    quotient(b * kh, 6746518852, log)
}

// A quotient with the conductivities of both layers in its dividend: 0 if either lets no water through, where the divisor may be 0.
#[tactic(auto, unfolding(words::specs::Fitted::fitted))]
fn through_both(a: u64, kv1: u64, kv2: u64, d: u64) -> Option<u64>
    requires { (kv1 ≤ 100000000) × (kv2 ≤ 100000000) × (0 < kv1 → 0 < kv2 → 0 < d) }
    ensures { result ≡ fitted (cond (eqb kv1 0 || eqb kv2 0) 0 (a * kv1 * kv2 / d)) }
{
    if kv1 == 0 || kv2 == 0 {
        return Some(0);
    }
    quotient(a, kv1 * kv2, d)
}

// Vertical C over an area between a layer below layer 1, of b1 and kv1, and the next one; 0 if either lets no water through.
#[tactic(auto, unfolding(crate::specs::Geometry::vertical))]
pub fn vertical(a: u64, b1: u64, kv1: u64, b2: u64, kv2: u64) -> Option<u64>
    requires { (a ≤ 2 ^ 44) × (0 < b1) × (b1 ≤ 1000000) × (kv1 ≤ 100000000) × (b2 ≤ 1000000) × (kv2 ≤ 100000000) }
    ensures { result ≡ fitted (vertical a b1 kv1 b2 kv2) }
{
    through_both(a * 2, kv1, kv2, b1 * kv2 + b2 * kv1)
}

// Vertical C over an area between layers 1 and 2, where the water table is s µm above the bottom of layer 1; 0 if either lets no water through.
#[tactic(auto, unfolding(crate::specs::Geometry::from_table))]
pub fn from_table(a: u64, kv1: u64, b2: u64, kv2: u64, s: u64) -> Option<u64>
    requires { (a ≤ 2 ^ 44) × (kv1 ≤ 100000000) × (0 < b2) × (b2 ≤ 1000000) × (kv2 ≤ 100000000) × (s ≤ 1000000000) }
    ensures { result ≡ fitted (from_table a kv1 b2 kv2 s) }
{
    through_both(a * 1000, kv1, kv2, s * kv2 + 500 * b2 * kv1)
}

// That C where Kv_1 and Kv_2 differ, by the figure that is worked by hand in `cases` Table: over 753982 mm², with Kv_1 10000, b_2 2000, Kv_2 40000 and s 8000000.
// A theorem, and no code.
#[tactic(auto, unfolding(crate::specs::Geometry::from_table))]
pub fn table_case()
    ensures { from_table 753982 10000 2000 40000 8000000 ≡ 913917 }
{}

// S of a cell of layer 1.
#[tactic(auto, unfolding(crate::specs::Geometry::unconfined_storage))]
pub fn unconfined_storage(a: u64, y: u64) -> Option<u64>
    ensures { result ≡ fitted (unconfined_storage a y) }
{
    quotient(a, y, 1)
}

// S of a cell below layer 1.
#[tactic(auto, unfolding(crate::specs::Geometry::confined_storage))]
pub fn confined_storage(a: u64, b: u64, storage: u64) -> Option<u64>
    requires { (b ≤ 1000000) × (storage ≤ 1000000) }
    ensures { result ≡ fitted (confined_storage a b storage) }
{
    quotient(a, b * storage, 1000000)
}

// S of the well.
#[tactic(auto, unfolding(crate::specs::Geometry::well_storage))]
pub fn well_storage(w: u64) -> u64
    requires { w ≤ 1000000000 }
    ensures { result ≡ well_storage w }
{
    w * 1000000
}
