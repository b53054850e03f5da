// Prints the readings of a record as the reference model does (tests/README.md), for `check_scenarios`. Of what is printed its functions
// promise nothing: it is held to the model's.
#![tactic(auto)]

ghost use Rattle.std.specs.Prelude.{◌≤◌, ◌<◌};

use check_hash::checksum_of;
use check_print::{print_refusal, size};
use limits::{COLUMN_PLACES, DRAWDOWN_LIMIT, LAYER_PLACES, LENGTH_LIMIT, RATE_LIMIT};
use read_budget::storage_loss;
use read_drawdown::drawdown;
use read_flow::face_flow;
use read_limiting::Limiting;
use readings::Place;
use record::Record;
use refusals::Refusal;
use std::fmt::Display;
use std::io::{self, Write};

// What a reading answers.
fn print_answer<T: Display + Drop>(
    out: &mut impl Write,
    answer: Result<T, Refusal>,
) -> io::Result<()> {
    match answer {
        Ok(value) => write!(out, " {value}"),
        Err(refusal) => print_refusal(out, refusal),
    }
}

// The same, to the end of the line.
fn print_last<T: Display + Drop>(
    out: &mut impl Write,
    answer: Result<T, Refusal>,
) -> io::Result<()> {
    print_answer(out, answer)?;
    writeln!(out)
}

// ---- budget

fn print_budget(out: &mut impl Write, rec: &Record) -> io::Result<()> {
    write!(out, "budget")?;
    match read_budget::budget(*rec) {
        Ok(totals) => write!(
            out,
            " {} {} {} {} {}",
            totals.pumped, totals.well_loss, totals.cell_loss, totals.inflow, totals.mark
        )?,
        Err(refusal) => print_refusal(out, refusal)?,
    }
    writeln!(out)
}

// ---- drawdowns

fn print_depths(out: &mut impl Write, rec: &Record) -> io::Result<()> {
    write!(out, "well")?;
    print_last(out, drawdown(*rec, Place::Well))?;
    for i in 1..=rec.site.layers.min(LAYER_PLACES as u64) {
        write!(out, "layer {i}")?;
        for j in 1..rec.site.columns.min(COLUMN_PLACES as u64) {
            print_answer(out, drawdown(*rec, Place::Cell(i, j)))?;
        }
        writeln!(out)?;
    }
    Ok(())
}

// ---- storage losses

// How many places a record has; 0 where its counts are out of their limits.
fn place_count(rec: &Record) -> usize
    ensures { result ≤ 981 }
{
    match (rec.site.layers, rec.site.columns) {
        (n @ 0..=20, m @ 1..=50) => (1 + n * (m - 1)) as usize,
        _ => 0,
    }
}

// Byte k of the sets that are read: 0 empty, 1 all, 2 the well, 3 the cells, 4 and 5 mixed ones.
fn set_byte(set: u64, k: usize) -> u8
    requires { k < 1001 }
{
    match (set, k) {
        (0, _) => 0,
        (1, _) => 1,
        (2, 0) => 255,
        (2, _) => 0,
        (3, 0) => 0,
        (3, _) => 128,
        (4, _) => (k % 3) as u8,
        _ => ((k * k + k / 7) % 5) as u8,
    }
}

// The storage loss of the first n bytes of a set.
fn print_loss(out: &mut impl Write, rec: &Record, set: u64, n: usize) -> io::Result<()>
    requires { n ≤ 1001 }
{
    let mut bytes = [0u8; 1001];
    for (k, byte) in bytes.iter_mut().enumerate() {
        *byte = set_byte(set, k);
    }
    print_last(out, storage_loss(*rec, &bytes[..n]))
}

fn print_set_length(out: &mut impl Write, rec: &Record, n: usize) -> io::Result<()>
    requires { n ≤ 1001 }
{
    write!(out, "set length {n}")?;
    print_loss(out, rec, 1, n)
}

fn print_sets(out: &mut impl Write, rec: &Record) -> io::Result<()> {
    let n = place_count(rec);
    for set in 0..6 {
        write!(out, "set {set}")?;
        print_loss(out, rec, set, n)?;
    }
    if n == 0 {
        return Ok(());
    }
    print_set_length(out, rec, 0)?;
    print_set_length(out, rec, n - 1)?;
    print_set_length(out, rec, n + 1)
}

// ---- deep cells

fn depth_at(rec: &Record, layer: u64, column: u64) -> u64 {
    drawdown(*rec, Place::Cell(layer, column)).map_or(0, |depth| size(depth))
}

// The greatest drawdown of a cell.
fn deepest(rec: &Record) -> u64 {
    (0..1000)
        .map(|k| depth_at(rec, k / 50 + 1, k % 50 + 1))
        .max()
        .unwrap_or(0)
}

// What a lent list of n slots gives, and what it holds after that. Before it each slot holds 9, which is no code.
fn list_deep(rec: &Record, depth: u64, n: usize) -> (Result<u64, Refusal>, [u64; 1001])
    requires { n ≤ 1001 }
{
    let mut list = [9; 1001];
    let answer = read_deep_cells::deep_cells(*rec, depth, &mut list[..n]);
    (answer, list)
}

// The answer with a list of n slots, how many of them are as they were, and those that are written. Gives how many cells there are, 0 for a refusal.
fn print_listed(
    out: &mut impl Write,
    word: &str,
    rec: &Record,
    depth: u64,
    n: usize,
) -> io::Result<usize>
    requires { n ≤ 1001 }
{
    let (answer, list) = list_deep(rec, depth, n);
    write!(out, "{word} {depth}")?;
    print_answer(out, answer)?;
    let left = list[..n].iter().filter(|code| **code == 9).count();
    write!(out, " {left}")?;
    let count = answer.unwrap_or(0) as usize;
    for code in list.iter().take(count) {
        write!(out, " {code}")?;
    }
    writeln!(out)?;
    Ok(count)
}

// What a list with a slot for each place gives, one exactly long enough, and one a slot too short.
fn print_deep(out: &mut impl Write, rec: &Record, depth: u64) -> io::Result<()> {
    let count = print_listed(out, "deep", rec, depth, place_count(rec))?;
    if 1 <= count && count <= 1001 {
        print_listed(out, "deep exact", rec, depth, count)?;
        print_listed(out, "deep short", rec, depth, count - 1)?;
    }
    Ok(())
}

// D of the cell in the middle of the list of all that are drawn down; 0 where there is none.
fn middle(rec: &Record) -> u64 {
    let (answer, list) = list_deep(rec, 0, place_count(rec));
    match answer {
        Ok(count @ 1..=1001) => {
            let code = list[count as usize / 2];
            depth_at(rec, code / 100, code % 100)
        }
        _ => 0,
    }
}

fn print_deep_cells(out: &mut impl Write, rec: &Record) -> io::Result<()> {
    let most = deepest(rec);
    let half = middle(rec);
    for depth in [
        0,
        most / 4,
        most / 2,
        half.saturating_sub(1),
        half,
        most.saturating_sub(1),
        most,
        DRAWDOWN_LIMIT,
        u64::MAX,
    ] {
        print_deep(out, rec, depth)?;
    }
    Ok(())
}

// ---- sameness

// What same answers of two records, and the other way round.
pub fn print_both_ways(out: &mut impl Write, one: &Record, other: &Record) -> io::Result<()> {
    print_answer(out, read_same::same(*one, *other).map(|same| same as u64))?;
    print_answer(out, read_same::same(*other, *one).map(|same| same as u64))
}

fn print_same(out: &mut impl Write, rec: &Record, other: &Record) -> io::Result<()> {
    write!(out, "same")?;
    print_both_ways(out, rec, other)?;
    writeln!(out)
}

// ---- flows for a step not taken

fn is_screened(rec: &Record, layer: u64) -> bool
    requires { (1 ≤ layer) × (layer ≤ 20) }
{
    layer <= rec.site.layers && rec.site.screened[layer as usize - 1] == 1
}

fn print_inward(out: &mut impl Write, rec: &Record, dt: u64) -> io::Result<()> {
    for i in 1..=20 {
        if is_screened(rec, i) {
            write!(out, "inward {dt} {i}")?;
            print_last(out, face_flow(*rec, Place::Cell(i, 1), Place::Well, dt))?;
        }
    }
    Ok(())
}

// From each stored cell of a layer to the next column, or to the layer below; the first refusal ends the row.
fn print_row_flows(
    out: &mut impl Write,
    rec: &Record,
    layer: u64,
    below: bool,
    dt: u64,
) -> io::Result<()>
    requires { layer ≤ 20 }
{
    for j in 1..rec.site.columns.min(COLUMN_PLACES as u64) {
        let next = if below {
            Place::Cell(layer + 1, j)
        } else {
            Place::Cell(layer, j + 1)
        };
        let flow = face_flow(*rec, Place::Cell(layer, j), next, dt);
        print_answer(out, flow)?;
        if flow.is_err() {
            break;
        }
    }
    Ok(())
}

// The flows of each layer, across or down to the layer below.
fn print_rows(out: &mut impl Write, rec: &Record, below: bool, dt: u64) -> io::Result<()> {
    let word = if below { "down" } else { "across" };
    let rows = rec.site.layers.saturating_sub(below as u64);
    for i in 1..=rows.min(LAYER_PLACES as u64) {
        write!(out, "{word} {dt} {i}")?;
        print_row_flows(out, rec, i, below, dt)?;
        writeln!(out)?;
    }
    Ok(())
}

// From the topmost screened layer, or from layer 0, which there is not.
fn print_length(out: &mut impl Write, rec: &Record, dt: u64) -> io::Result<()> {
    let mut first = 0;
    for i in 1..=20 {
        if is_screened(rec, i) {
            first = i;
            break;
        }
    }
    write!(out, "length {dt}")?;
    print_last(out, face_flow(*rec, Place::Cell(first, 1), Place::Well, dt))
}

// ---- what would hold back a step not taken

// The number of a refusal, and the layer and column that bring it about, 0 and 0 for the well.
fn print_held(out: &mut impl Write, number: u64, place: Place) -> io::Result<()> {
    match place {
        Place::Well => write!(out, " {number} 0 0"),
        Place::Cell(layer, column) => write!(out, " {number} {layer} {column}"),
    }
}

fn print_limit(out: &mut impl Write, limit: Result<Limiting, Refusal>) -> io::Result<()> {
    match limit {
        Ok(Limiting::TooLong(place, longest)) => {
            print_held(out, 8, place)?;
            write!(out, " {longest}")
        }
        Ok(Limiting::PastIntake(place)) => print_held(out, 10, place),
        Ok(Limiting::PastBottom(place)) => print_held(out, 11, place),
        Ok(Limiting::Nothing) => write!(out, " nothing"),
        Err(refusal) => print_refusal(out, refusal),
    }
}

// What would hold back a step of a rate and a length; gives the longest step that 8 allows, where 8 is what holds it back, or the greatest length.
pub fn print_limiting(out: &mut impl Write, rec: &Record, rate: u64, dt: u64) -> io::Result<u64> {
    write!(out, "limiting {rate} {dt}")?;
    let limit = read_limiting::limiting_place(*rec, rate, dt);
    print_limit(out, limit)?;
    writeln!(out)?;
    if let Ok(Limiting::TooLong(_, longest)) = limit {
        return Ok(longest);
    }
    Ok(LENGTH_LIMIT)
}

// Where 8 is what holds the step of the greatest length back: a step of 1 µs more than the longest that 8 allows, the longest, and that at the
// greatest rate.
fn print_limits(out: &mut impl Write, rec: &Record, rate: u64, dt: u64) -> io::Result<()> {
    print_limiting(out, rec, rate, dt)?;
    let longest = print_limiting(out, rec, rate, LENGTH_LIMIT)?;
    if longest < LENGTH_LIMIT {
        print_limiting(out, rec, rate, longest + 1)?;
        print_limiting(out, rec, rate, longest)?;
        print_limiting(out, rec, RATE_LIMIT, longest)?;
    }
    print_limiting(out, rec, RATE_LIMIT, dt)?;
    Ok(())
}

// ---- everything

// Every reading of a record; those of a step not taken for a rate and a length.
pub fn print_readings(
    out: &mut impl Write,
    rec: &Record,
    before: &Record,
    start: &Record,
    rate: u64,
    dt: u64,
) -> io::Result<()> {
    writeln!(out, "time {}", rec.time)?;
    print_budget(out, rec)?;
    writeln!(out, "checksum {}", checksum_of(rec))?;
    print_depths(out, rec)?;
    print_sets(out, rec)?;
    print_deep_cells(out, rec)?;
    for other in [rec, before, start] {
        print_same(out, rec, other)?;
    }
    print_inward(out, rec, dt)?;
    print_rows(out, rec, false, dt)?;
    print_rows(out, rec, true, dt)?;
    for length in [0, 1, dt, LENGTH_LIMIT, LENGTH_LIMIT + 1] {
        print_length(out, rec, length)?;
    }
    print_limits(out, rec, rate, dt)
}

// ---- readings that 12 refuses, before any length is judged, and what would hold back steps that 7 refuses

fn print_no_places(out: &mut impl Write, rec: &Record, layers: u64, columns: u64) -> io::Result<()>
    requires { (layers ≤ 20) × (columns ≤ 50) }
{
    for (layer, column) in [
        (0, 1),
        (1, 0),
        (1, columns),
        (layers, columns + 1),
        (layers + 1, 1),
        (u64::MAX, u64::MAX),
    ] {
        write!(out, "no place")?;
        print_last(out, drawdown(*rec, Place::Cell(layer, column)))?;
    }
    Ok(())
}

fn print_no_faces(out: &mut impl Write, rec: &Record, layers: u64, columns: u64) -> io::Result<()>
    requires { (layers ≤ 20) × (columns ≤ 50) }
{
    for (from, to) in [
        (Place::Well, Place::Well),
        (Place::Well, Place::Cell(1, 1)),
        (Place::Cell(layers, 2), Place::Well),
        (Place::Cell(1, 1), Place::Cell(1, 1)),
        (Place::Cell(1, 1), Place::Cell(2, 2)),
        (Place::Cell(1, columns), Place::Cell(2, columns)),
        (Place::Cell(1, columns), Place::Cell(1, columns + 1)),
        (Place::Cell(layers, 1), Place::Cell(layers + 1, 1)),
        (Place::Cell(0, 1), Place::Cell(1, 1)),
        (Place::Cell(1, u64::MAX), Place::Cell(1, 0)),
    ] {
        write!(out, "no face")?;
        print_last(out, face_flow(*rec, from, to, 0))?;
    }
    Ok(())
}

pub fn print_refused_readings(out: &mut impl Write, rec: &Record) -> io::Result<()> {
    let layers = rec.site.layers;
    let columns = rec.site.columns;
    if 20 < layers || 50 < columns {
        return Ok(());
    }
    print_no_places(out, rec, layers, columns)?;
    print_no_faces(out, rec, layers, columns)?;
    for (rate, dt) in [
        (RATE_LIMIT + 1, 1),
        (0, 0),
        (0, LENGTH_LIMIT + 1),
        (u64::MAX, u64::MAX),
    ] {
        print_limiting(out, rec, rate, dt)?;
    }
    Ok(())
}

// ---- head losses

// A float as its 64 bits.
fn print_float(out: &mut impl Write, x: f64) -> io::Result<()> {
    if x.is_nan() {
        write!(out, " nan")
    } else {
        write!(out, " {}", x.to_bits())
    }
}

fn print_head_loss(out: &mut impl Write, rec: &Record, layer: u64, dt: u64) -> io::Result<()> {
    match read_head_loss::head_loss(*rec, layer, dt) {
        Ok(losses) => {
            for x in [losses.inflow, losses.screen_loss, losses.pipe_loss] {
                print_float(out, x)?;
            }
        }
        Err(refusal) => print_refusal(out, refusal)?,
    }
    writeln!(out)
}

// The head losses of every screened layer for a length not taken.
pub fn print_heads(out: &mut impl Write, rec: &Record, dt: u64) -> io::Result<()> {
    for i in 1..=20 {
        if is_screened(rec, i) {
            write!(out, "head {dt} {i}")?;
            print_head_loss(out, rec, i, dt)?;
        }
    }
    Ok(())
}

// Layers that 12 refuses, before any length is judged.
pub fn print_refused_heads(out: &mut impl Write, rec: &Record) -> io::Result<()> {
    let layers = rec.site.layers;
    if layers <= 20 {
        for layer in [0, 1, layers + 1, u64::MAX] {
            write!(out, "no screen")?;
            print_head_loss(out, rec, layer, 0)?;
        }
    }
    Ok(())
}
