// What would hold back a step not taken (document 02, N12): where it would be refused with 8, 10 or 11, the place that brings this about.
// C is in 10^-12 m²/s, S in nl per m, V in nl, D in µm, the rate in ml/s, lengths of steps in µs.
#![tactic(auto)]

ghost use Rattle.std.specs.Prelude.{◌≡◌, ℕ, suc, ◌-◌, ◌≤◌, ◌<◌, pos};
ghost use Rattle.network.specs.Network.{losses_after};
ghost use Rattle.network.specs.Grid.{network_of};
ghost use Rattle.record.specs.declared.Record.{Record};
ghost use Rattle.record.specs.Record.{grid_of, state_of};
ghost use Rattle.step_stability.specs.Stability.{Limited};
ghost use Rattle.step_drawdowns.specs.Drawdowns.{depth_at};
ghost use Rattle.step_sweep.specs.Worked.{losses_of};
ghost use Rattle.step_places.specs.Terms.{lent_of};
ghost use Rattle.step_rules.specs.Ready.{Ready};
ghost use Rattle.read_limiting.specs.Limiting.{foremost, too_long_in, past_bottom_in, limiting_of};
ghost use Rattle.read_limiting.specs.Slots.{slot_place, longest_word, slot_longest, less_at, TooLongFor, deeper_slot, Shallow};
ghost use Rattle.read_limiting.specs.Reason.{Reason};

use limits::{CELL_PLACES, COLUMN_PLACES};
use readings::Place;
use record::Record;
use refusals::Refusal;
use step_losses::Faces;
use step_sweep::Workspace;
use words::divide::quotient;

// No limit that a word could hold: the C of a place add up to 0, or its longest step is over one word.
const NO_LIMIT: u64 = u64::MAX;

// What would hold the step back. Place is document 01's term.
#[derive(Clone, Copy)]
pub enum Limiting {
    TooLong(Place, u64), // 8: the place with the shortest allowed step, and that step in whole µs, the longest that 8 allows, perhaps 0
    PastIntake(Place), // 10: the well
    PastBottom(Place), // 11: the cell of layer 1 that would be deepest
    Nothing, // nothing of this kind: the step would be taken, or refused with 7 or 9
}

// The slot of a cell, and the longest step that 8 allows there.
#[derive(Clone, Copy)]
struct Shortest {
    slot: usize,
    longest: u64,
}

// The place of the cell in a slot.
fn place_of(slot: usize) -> Place
    requires { slot < 1000 }
    ensures { result ≡ slot_place slot }
{
    Place::Cell(
        (slot / COLUMN_PLACES + 1) as u64,
        (slot % COLUMN_PLACES + 1) as u64,
    )
}

// The longest step that 8 allows at a place, from the sum of C of its faces and its S.
fn longest(sum: u64, storage: u64) -> u64
    ensures { result ≡ longest_word sum storage }
{
    if sum == 0 {
        NO_LIMIT
    } else {
        quotient(1_000_000, storage, sum).unwrap_or(NO_LIMIT)
    }
}

// That of the cell in slot k; a slot of the last column, or past it, is no place and sets no limit.
fn cell_longest(rec: &Record, k: usize) -> u64
    requires { (k < 1000) × Limited rec.now.screen rec.now.horizontal rec.now.vertical }
    ensures { result ≡ slot_longest rec.now k }
{
    if rec.site.columns as usize <= k % COLUMN_PLACES + 1 {
        NO_LIMIT
    } else {
        longest(step_stability::cell_sum(rec, k), rec.storages[k])
    }
}

// The first of the cells in the first n slots with the shortest allowed step.
fn shortest_cell(rec: &Record, n: usize) -> Shortest
    requires { (1 ≤ n) × (n ≤ 1000) × Limited rec.now.screen rec.now.horizontal rec.now.vertical }
    ensures slot_value { (result.slot ≡ foremost (less_at (slot_longest rec.now)) 0 (n - 1)) × (result.slot < n) }
    ensures longest_value { result.longest ≡ slot_longest rec.now result.slot }
{
    let mut best = Shortest {
        slot: 0,
        longest: cell_longest(rec, 0),
    };
    for k in 1..n {
        let here = cell_longest(rec, k);
        if here < best.longest {
            best = Shortest {
                slot: k,
                longest: here,
            };
        }
    }
    best
}

// The place with the shortest allowed step, the well before any cell, where 8 forbids some step.
fn too_long(rec: &Record) -> Limiting
    requires { TooLongFor rec.now }
    ensures { result ≡ too_long_in (grid_of rec.now) }
{
    let layers = rec.site.layers as usize;
    let well = longest(step_stability::well_sum(layers, rec), rec.well_storage);
    let cell = shortest_cell(rec, layers * COLUMN_PLACES);
    if well <= cell.longest {
        Limiting::TooLong(Place::Well, well)
    } else {
        Limiting::TooLong(place_of(cell.slot), cell.longest)
    }
}

// V of the cells after a step that is worked and not taken.
fn losses_after(record: Record, rate: u64, dt: u64) -> [i64; CELL_PLACES]
    requires { Ready «record» rate dt }
    ensures { result ≡ losses_of (lent_of «record» rate dt) }
{
    let terms = step_run::terms_of(record, rate, dt);
    let areas = coefficient_cells::areas_of(record.site);
    // no multipliers: for one step they do not pay
    let multipliers = step_drawdowns::multipliers(&record.storages, 0);
    let well = step_drawdowns::drawdown(record.well_loss, record.well_storage);
    let mut losses = record.losses;
    let mut work = Workspace {
        faces: Faces {
            depths: [0; CELL_PLACES],
            conductances: record.horizontal,
            down: [0; CELL_PLACES],
        },
        before: [0; CELL_PLACES],
    };
    step_sweep::work_step(
        terms,
        record.well_loss,
        well,
        record.inflow,
        &record,
        &areas,
        &multipliers,
        &mut losses,
        &mut work,
    );
    losses
}

// D of the cell in slot k.
fn depth(losses: &[i64; CELL_PLACES], storages: &[u64; CELL_PLACES], k: usize) -> u64
    requires { (k < 1000) × Shallow losses.now storages.now (suc k) }
    ensures { pos result ≡ depth_at losses.now storages.now k }
{
    step_drawdowns::drawdown(losses[k], storages[k])
}

// The first of the first n slots with the largest D.
fn deepest_slot(losses: &[i64; CELL_PLACES], storages: &[u64; CELL_PLACES], n: usize) -> usize
    requires { (1 ≤ n) × (n ≤ 1000) × Shallow losses.now storages.now n }
    ensures { (result ≡ foremost (deeper_slot losses.now storages.now) 0 (n - 1)) × (result < n) }
{
    let mut best = 0;
    for k in 1..n {
        let deepest = depth(losses, storages, best);
        if deepest < depth(losses, storages, k) {
            best = k;
        }
    }
    best
}

// The deepest cell of layer 1 after a step that is worked and not taken.
fn past_bottom(record: Record, rate: u64, dt: u64) -> Limiting
    requires { Ready «record» rate dt }
    ensures { result ≡ past_bottom_in (grid_of «record») (losses_after (network_of (grid_of «record»)) (state_of «record»).losses rate dt) }
{
    let losses = losses_after(record, rate, dt);
    let stored = (record.site.columns - 1) as usize;
    let slot = deepest_slot(&losses, &record.storages, stored);
    Limiting::PastBottom(place_of(slot))
}

// What would hold back a step of dt µs at a rate in ml/s, by the refusal that `step` answers it with.
pub fn limiting_place(record: Record, rate: u64, dt: u64) -> Result<Limiting, Refusal>
    ensures { result ≡ limiting_of «record» rate dt }
{
    let Err(refusal) = step::step(record, rate, dt).outcome else {
        return Ok(Limiting::Nothing);
    };
    match refusal {
        Refusal::Record => Err(Refusal::Record),
        Refusal::Unstable => Ok(too_long(&record)),
        Refusal::PastIntake => Ok(Limiting::PastIntake(Place::Well)),
        Refusal::PastBottom => Ok(past_bottom(record, rate, dt)),
        _ => Ok(Limiting::Nothing),
    }
}

// A theorem, with nothing to run: whatever the record, the rate and the length, the answer gives the true reason, in terms of what `step` answers and of the
// tests that it judges by, and no other answer with its number does.
pub fn true_reason()
    ensures { (rec : Record) (rate dt : ℕ) → Reason rec rate dt }
{}
