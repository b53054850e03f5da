// The cells of a record that are deeper than a given drawdown, each once in a lent list: by drawdown falling, then layer rising, then column rising.
// D is in µm.
#![tactic(auto)]

ghost use Rattle.std.specs.Prelude.{◌≡◌, List, map, ℕ, ◌≤◌, ◌<◌, ◌%◌, length};
ghost use Rattle.limits.specs.Limits.{drawdown_limit};
ghost use Rattle.record.specs.declared.Record.{Record};
ghost use Rattle.readings.specs.Readings.{deep_refusal, deep_of};
ghost use Rattle.read_deep_cells.specs.Codes.{code_of, code_limit, key_by, key_of, below, deep_at, Shallow, Arrangement};
ghost use Rattle.read_deep_cells.specs.Order.{Whole};

use limits::{CELL_PLACES, COLUMN_PLACES, DRAWDOWN_LIMIT};
use record::Record;
use refusals::Refusal;

// Above every code: a layer is at most 20 and a stored column at most 49.
const CODE_LIMIT: u64 = 10_000;

// Layer×100 + column of the cell in slot k.
fn code(k: usize) -> u64
    requires { k < 1000 }
    ensures { result ≡ code_of k }
{
    ((k / COLUMN_PLACES + 1) * 100 + k % COLUMN_PLACES + 1) as u64
}

// Of two cells the one with the smaller key comes first: the deeper one, and of two that are equally deep the one with the smaller code. That is
// the one of the upper layer, and within a layer the one of the inner column, since no stored column is above 49.
fn key(depth: u64, code: u64) -> u64
    requires { (depth ≤ drawdown_limit) × (code < code_limit) }
    ensures { result ≡ key_by depth code }
{
    let above = DRAWDOWN_LIMIT - depth;
    above * CODE_LIMIT + code
}

// Whether the cell in slot k is deeper than `depth`. A slot that no cell uses is never deeper: its D is 0.
fn is_deep(depths: &[u64; CELL_PLACES], depth: u64, k: usize) -> bool
    requires { k < 1000 }
    ensures { result ≡ deep_at depth depths.now k }
{
    depth < depths[k]
}

// How many of the first n slots are deeper. Tried as filter and count: the proof of `returns`, which speaks of `below`, did not close.
fn count_deep(depths: &[u64; CELL_PLACES], depth: u64, n: usize) -> usize
    requires { n ≤ 1000 }
    ensures { result ≡ length (below (deep_at depth depths.now) code_of n) }
{
    let mut count = 0;
    for k in 0..n {
        if is_deep(depths, depth, k) {
            count += 1;
        }
    }
    count
}

// Writes the key of each of them into a list that has a slot for each.
fn write_keys(depths: &[u64; CELL_PLACES], depth: u64, n: usize, list: &mut [u64])
    requires n_bound { (n ≤ 1000) × Shallow depths.now }
    requires list_len { length list.old ≡ length (below (deep_at depth depths.now) (key_of depths.now) n) }
    ensures { list.new ≡ below (deep_at depth depths.now) (key_of depths.now) n }
{
    let mut at = 0;
    for k in 0..n {
        if is_deep(depths, depth, k) {
            let deep = depths[k];
            list[at] = key(deep, code(k));
            at += 1;
        }
    }
}

// Leaves of each key its code.
fn keep_codes(list: &mut [u64])
    ensures { list.new ≡ map (λ x. x % code_limit) list.old }
{
    for x in list.iter_mut() {
        *x %= CODE_LIMIT;
    }
}

// The codes of the deeper ones of the first n slots in the order of their keys, in a list that has a slot for each.
fn arrange(depths: &[u64; CELL_PLACES], depth: u64, n: usize, list: &mut [u64])
    requires n_bound { (n ≤ 1000) × Shallow depths.now }
    requires list_len { length list.old ≡ length (below (deep_at depth depths.now) (key_of depths.now) n) }
    ensures { Arrangement depth depths.now n list.new }
{
    write_keys(depths, depth, n, list);
    read_order::rising(list);
    keep_codes(list);
}

// The cells with a D above `depth`: how many, and in the lent list the code of each in order. The rest of the list stays as it was, and all of it
// where the reading is refused.
pub fn deep_cells(record: Record, depth: u64, list: &mut [u64]) -> Result<u64, Refusal>
    ensures { record { answer = result; list = list.new } ≡ deep_of «record» depth list.old }
{
    if !validity::valid(record) {
        return Err(Refusal::Record);
    }
    let cells = COLUMN_PLACES * record.site.layers as usize;
    let depths = readings::depths(&record);
    let count = count_deep(&depths, depth, cells);
    if list.len() < count {
        return Err(Refusal::LentLength);
    }
    arrange(&depths, depth, cells, &mut list[..count]);
    Ok(count as u64)
}

// What the reading gives where it is not refused: the part of the list that is written has the code of each deep cell once, and no other, in the
// order of document 02, and is the only list that has.
pub fn deep_cells_in_order()
    ensures { (rec : Record) (D : ℕ) (old : List ℕ) → deep_refusal rec D (length old) ≡ 0 → Whole rec D old (deep_of rec D old) }
{}
