// Changes one number, or the few that go with it, in the record that each scenario text gives, and prints what a step of it comes to: every
// condition of 14 broken just barely beside its nearest allowed neighbour, and 9 by the pumped total and by the time. Then what holds that step
// back, and one of the greatest length (document 02, N12), and what same answers of the changed record and the unchanged one, and of it and the one
// before it in its group (N10). The reference model prints the same (tests/stored). The changes are chosen for bore K, and tried on every text.
#![tactic(auto)]

use check_hash::checksum_of;
use check_print::{print_outcome, print_refused_scenario, read_argument};
use check_report::{print_both_ways, print_limiting};
use limits::{LENGTH_LIMIT, TEXT_LIMIT};
use record::Record;
use refusals::Refusal;
use std::env;
use std::io::{self, BufWriter, Write};
use std::rt::Files;

mod changes;
mod drawdowns;

// The step that is tried: ml/s and µs.
const RATE: u64 = 1000;

const LENGTH: u64 = 500000;

// The outcome of the step, with the checksum of the record that it gives where 14 does not refuse it, and what holds it back, and one of the
// greatest length.
fn print_step(out: &mut impl Write, rec: &Record) -> io::Result<()> {
    let stepped = step::step(*rec, RATE, LENGTH);
    print_outcome(out, stepped.outcome)?;
    if stepped.outcome != Err(Refusal::Record) {
        write!(out, " {}", checksum_of(&stepped.record))?;
    }
    writeln!(out)?;
    print_limiting(out, rec, RATE, LENGTH)?;
    print_limiting(out, rec, RATE, LENGTH_LIMIT)?;
    Ok(())
}

// What same answers of the record with a change and of two others, both ways.
fn print_same(
    out: &mut impl Write,
    unchanged: &Record,
    last: &Record,
    rec: &Record,
) -> io::Result<()> {
    write!(out, "same")?;
    print_both_ways(out, unchanged, rec)?;
    print_both_ways(out, last, rec)?;
    writeln!(out)
}

// Whether their drawdowns are equal.
fn print_drawdowns(
    out: &mut impl Write,
    unchanged: &Record,
    last: &Record,
    rec: &Record,
) -> io::Result<()> {
    write!(out, "drawdowns")?;
    drawdowns::print_equal(out, unchanged, rec)?;
    drawdowns::print_equal(out, last, rec)?;
    writeln!(out)
}

// So many changes of a group, each of the record as it was; with `depths` also whether drawdowns are equal.
fn print_group<F: Fn(Record, u64) -> Record>(
    out: &mut impl Write,
    before: &Record,
    name: &str,
    depths: bool,
    cases: u64,
    change: F,
) -> io::Result<()>
    requires { F.IsAlwaysCallable change }
{
    let mut last = *before;
    for case in 1..=cases {
        write!(out, "{name} {case}")?;
        let rec = change(*before, case);
        print_step(out, &rec)?;
        print_same(out, before, &last, &rec)?;
        if depths {
            print_drawdowns(out, before, &last, &rec)?;
        }
        last = rec;
    }
    Ok(())
}

fn print_groups(out: &mut impl Write, before: &Record) -> io::Result<()> {
    write!(out, "unchanged")?;
    print_step(out, before)?;
    print_group(out, before, "counts", false, 16, changes::counts)?;
    print_group(out, before, "layers", false, 21, changes::layers)?;
    print_group(out, before, "numbers", false, 27, changes::numbers)?;
    print_group(out, before, "unused", false, 14, changes::unused)?;
    print_group(out, before, "well", false, 10, changes::well)?;
    print_group(
        out,
        before,
        "conductances",
        false,
        22,
        changes::conductances,
    )?;
    print_group(out, before, "storages", false, 11, changes::storages)?;
    print_group(out, before, "sums", false, 18, changes::sums)?;
    print_group(out, before, "totals", false, 8, changes::totals)?;
    print_group(out, before, "depths", false, 14, changes::depths)?;
    print_group(out, before, "below", false, 12, changes::below)?;
    print_group(out, before, "alone", false, 14, changes::alone)?;
    print_group(out, before, "tables", false, 14, changes::tables)?;
    print_group(out, before, "marks", false, 32, changes::marks)?;
    print_group(out, before, "waters", true, 27, changes::waters)
}

// The record after the steps of the first entry, as many of them as are taken.
fn after_first_entry(text: &[u8], start: Record) -> Record {
    match scenario::pumping_entry(text, 1) {
        Ok(entry) => step::repeat(start, entry.rate, entry.length, entry.repeats).record,
        Err(_) => start,
    }
}

fn print_text(out: &mut impl Write, text: &[u8]) -> io::Result<()> {
    let begun = scenario::start(text);
    match begun.outcome {
        Ok(()) => print_groups(out, &after_first_entry(text, begun.record)),
        Err(refusal) => print_refused_scenario(out, refusal),
    }
}

// The text of the file that an argument names.
fn print_file(rt: &impl Files, out: &mut impl Write, name: &str) -> io::Result<()> {
    // one byte more than a text may have
    let mut text = [0u8; TEXT_LIMIT + 1];
    let got = read_argument(rt, out, name, &mut text)?;
    print_text(out, &text[..got])
}

fn main(rt: HostRuntime) -> io::Result<()> {
    let mut out = BufWriter::new(rt.alloc(), io::writer(&rt))?;
    for name in env::args(&rt)?.skip(1) {
        print_file(&rt, &mut out, name.as_str())?;
    }
    out.flush()
}
