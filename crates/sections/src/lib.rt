// The five sections of a scenario's numbers: their counts and lengths are judged, and what they hold is read.
// The numbers stand in an array in the order of the text, with 0 after the last: it has one place more than a scenario has numbers, and of a
// longer text it holds the first.
#![tactic(auto)]

ghost use Rattle.std.specs.Prelude.{◌≡◌, true, List, ℕ, ◌+◌, ◌*◌, ◌≤◌, ◌<◌, Err, IfOk, MatchResult, length, replicate};
ghost use Rattle.laws.specs.Lists.{padded, first};
ghost use Rattle.limits.specs.Limits.{column_places, number_places, entry_limit, entry_count, repeat_limits};
ghost use Rattle.refusals.specs.Refusals.{outcome_of};
ghost use Rattle.sections.specs.Sections.{layer_width, form_tests, site_of, entries_of, entry_at, repeats_hold};
ghost use Rattle.sections.specs.Reading.{Reads, Section, field_copy};

use limits::{ENTRY_LIMIT, NUMBER_PLACES, REPEAT_LIMIT};
use refusals::Refusal;
use site::Site;

// How many numbers a layer has, and how many a pumping entry; a record of the other sections is one number.
const LAYER_WIDTH: usize = 5;

const ENTRY_WIDTH: usize = 3;

// The place of the count of each section but the layers', which is 0.
#[derive(Clone, Copy)]
pub struct Layout {
    pub columns: usize,
    pub well: usize,
    pub loss: usize,
    pub pumping: usize,
}

// A pumping entry.
#[derive(Clone, Copy)]
pub struct Entry {
    pub rate: u64, // ml/s
    pub length: u64, // of a step, µs
    pub repeats: u64, // how many steps
}

fn entry_count(n: u64) -> bool
    ensures { result ≡ entry_count n }
{
    n <= ENTRY_LIMIT
}

fn repeat_limits(n: u64) -> bool
    ensures { result ≡ repeat_limits n }
{
    1 <= n && n <= REPEAT_LIMIT
}

// The section whose count stands at `at`, of `count` records of `width` numbers each: the place after it. `within` says whether the count is within its limits.
// No count stands past place 160: the sections before the pumping entries have at most 20 × 5, 50, 4 and 2 numbers.
fn judge(at: usize, total: usize, width: usize, count: u64, within: bool) -> Result<usize, Refusal>
    requires { (at ≤ 160) × (width ≤ layer_width) × (within ≡ true → count ≤ entry_limit) }
    ensures value { Section total width count within at result }
    ensures place { IfOk result (λ next. (within ≡ true) × (next ≡ at + 1 + width * count)) }
{
    if total <= at {
        return Err(Refusal::Lines);
    }
    if !within {
        return Err(Refusal::Counts);
    }
    let size = width * (count as usize);
    if total - at <= size {
        return Err(Refusal::Lines);
    }
    Ok(at + 1 + size)
}

// The form of a text's numbers, of which there are `total`: one section after the other, each judged once, and no number left over.
pub fn layout_of(total: usize, values: &[u64; NUMBER_PLACES]) -> Result<Layout, Refusal>
    ensures { (ns : List ℕ) → values.now ≡ padded number_places 0 ns → total ≡ length ns → MatchResult result (λ layout. Reads values.now layout ns) (λ refused. outcome_of (first (form_tests ns)) ≡ Err refused) }
{
    let layers = values[0];
    let columns = judge(0, total, LAYER_WIDTH, layers, site::layer_count(layers))?;
    let m = values[columns];
    let well = judge(columns, total, 1, m, site::column_count(m))?;
    let well_numbers = values[well];
    let loss = judge(well, total, 1, well_numbers, well_numbers == 4)?;
    let coefficients = values[loss];
    let pumping = judge(
        loss,
        total,
        1,
        coefficients,
        site::coefficient_count(coefficients),
    )?;
    let entries = values[pumping];
    let end = judge(pumping, total, ENTRY_WIDTH, entries, entry_count(entries))?;
    if end < total {
        return Err(Refusal::Lines);
    }
    Ok(Layout {
        columns,
        well,
        loss,
        pumping,
    })
}

// One number of each of n records of `width` numbers, the first of them at `from`, and 0 after the last.
fn copied<const N: usize>(
    values: &[u64; NUMBER_PLACES],
    from: usize,
    width: usize,
    n: usize,
) -> [u64; N]
    requires { (from ≤ 160) × (width ≤ layer_width) × (n ≤ column_places) × (n ≤ N) }
    ensures { result ≡ field_copy values.now from width n (replicate N 0) }
{
    let mut out = [0; N];
    for i in 0..n {
        out[i] = values[from + width * i];
    }
    out
}

// The numbers of the first four sections.
pub fn site_of(values: &[u64; NUMBER_PLACES], layout: Layout) -> Site
    requires { (ns : List ℕ) × Reads values.now layout ns }
    ensures { (ns : List ℕ) → Reads values.now layout ns → result ≡ site_of ns }
{
    let layers = values[0];
    let n = layers as usize;
    let well: [u64; 4] = copied(values, layout.well + 1, 1, 4);
    let columns = values[layout.columns];
    let loss_count = values[layout.loss];
    Site {
        layers,
        thickness: copied(values, 1, LAYER_WIDTH, n),
        screened: copied(values, 2, LAYER_WIDTH, n),
        kh: copied(values, 3, LAYER_WIDTH, n),
        kv: copied(values, 4, LAYER_WIDTH, n),
        storage: copied(values, 5, LAYER_WIDTH, n),
        columns,
        radii: copied(values, layout.columns + 1, 1, columns as usize),
        well_radius: well[0],
        water_area: well[1],
        intake: well[2],
        friction: well[3],
        loss_count,
        loss_coefficients: copied(values, layout.loss + 1, 1, loss_count as usize),
    }
}

// How many pumping entries.
pub fn entries(values: &[u64; NUMBER_PLACES], layout: Layout) -> u64
    requires { (ns : List ℕ) × Reads values.now layout ns }
    ensures { (ns : List ℕ) → Reads values.now layout ns → result ≡ entries_of ns }
{
    values[layout.pumping]
}

// Pumping entry i, counted from 0.
pub fn entry_at(values: &[u64; NUMBER_PLACES], layout: Layout, i: usize) -> Entry
    requires { (ns : List ℕ) × Reads values.now layout ns × (i < entries_of ns) }
    ensures { (ns : List ℕ) → Reads values.now layout ns → result ≡ entry_at ns i }
{
    let at = layout.pumping + ENTRY_WIDTH * i;
    Entry {
        rate: values[at + 1],
        length: values[at + 2],
        repeats: values[at + 3],
    }
}

// Whether the repeats of each pumping entry are within their limits.
pub fn repeats_hold(values: &[u64; NUMBER_PLACES], layout: Layout) -> bool
    requires { (ns : List ℕ) × Reads values.now layout ns }
    ensures { (ns : List ℕ) → Reads values.now layout ns → result ≡ repeats_hold ns }
{
    for i in 0..values[layout.pumping] as usize {
        if !repeat_limits(values[layout.pumping + 3 + ENTRY_WIDTH * i]) {
            return false;
        }
    }
    true
}
