// Prints what the library makes of each scenario text that an argument names; the reference model prints the same (tests/stored).
#![tactic(auto)]

use check_hash::checksum_of;
use check_print::{print_heading, print_outcome, print_refused_scenario, read_argument};
use check_report::{print_heads, print_readings, print_refused_heads, print_refused_readings};
use limits::{ENTRY_LIMIT, TEXT_LIMIT};
use record::{Answer, Record, Repeated};
use sections::Entry;
use std::env;
use std::io::{self, BufWriter, Write};
use std::rt::Files;

// The outcome of start: the number of the refusal, or the record's checksum.
fn print_start(out: &mut impl Write, text: &[u8]) -> io::Result<()> {
    let begun = scenario::start(text);
    if let Err(refusal) = begun.outcome {
        return print_refused_scenario(out, refusal);
    }
    let rec = begun.record;
    writeln!(
        out,
        "accepted {} {} {}",
        rec.site.layers,
        rec.site.columns,
        checksum_of(&rec)
    )
}

fn print_entries(out: &mut impl Write, text: &[u8]) -> io::Result<()> {
    for number in [0, 1, 2, ENTRY_LIMIT, ENTRY_LIMIT + 1] {
        match scenario::pumping_entry(text, number) {
            Ok(entry) => writeln!(
                out,
                "entry {} {} {}",
                entry.rate, entry.length, entry.repeats
            )?,
            Err(refusal) => writeln!(out, "refused {}", refusal.number())?,
        }
    }
    Ok(())
}

// What the steps of an entry come to, one by one: the refusal that ended them, if any, and the record after those before it.
fn run(start: Record, entry: Entry) -> Answer {
    let mut ran = Answer {
        outcome: Ok(()),
        record: start,
    };
    for _ in 0..entry.repeats {
        ran = step::step(ran.record, entry.rate, entry.length);
        if ran.outcome.is_err() {
            break;
        }
    }
    ran
}

// What is printed of a state: the readings in whole numbers, or the head losses.
fn print_state(
    out: &mut impl Write,
    heads: bool,
    rec: &Record,
    before: &Record,
    start: &Record,
    rate: u64,
    length: u64,
) -> io::Result<()> {
    if heads {
        print_heads(out, rec, length)
    } else {
        print_readings(out, rec, before, start, rate, length)
    }
}

// The pumping entries, one after the other, each from the record that the one before it left, and the state after each.
fn print_entries_run(
    out: &mut impl Write,
    text: &[u8],
    heads: bool,
    start: &Record,
) -> io::Result<()> {
    let mut before = *start;
    for number in 1..=ENTRY_LIMIT {
        let Ok(entry) = scenario::pumping_entry(text, number) else {
            break;
        };
        let ran = run(before, entry);
        print_heading(out, number, ran.outcome)?;
        print_state(
            out,
            heads,
            &ran.record,
            &before,
            start,
            entry.rate,
            entry.length,
        )?;
        before = ran.record;
    }
    Ok(())
}

// The state at the start, for a rate of 0 and a length of 1 µs, and after each entry.
fn print_states(out: &mut impl Write, text: &[u8], heads: bool) -> io::Result<()> {
    let begun = scenario::start(text);
    if let Err(refusal) = begun.outcome {
        return print_refused_scenario(out, refusal);
    }
    let start = begun.record;
    print_heading(out, 0, Ok(()))?;
    if heads {
        print_refused_heads(out, &start)?;
    } else {
        print_refused_readings(out, &start)?;
    }
    print_state(out, heads, &start, &start, &start, 0, 1)?;
    print_entries_run(out, text, heads, &start)
}

// One line for so many equal steps: the number of the entry, what became of them, how many were taken, and the record's checksum.
fn print_run(out: &mut impl Write, number: u64, repeated: &Repeated) -> io::Result<()> {
    write!(out, "run {number}")?;
    print_outcome(out, repeated.outcome)?;
    writeln!(out, " {} {}", repeated.taken, checksum_of(&repeated.record))
}

// No step, as entry 0, and then the pumping entries, each run at once.
fn print_runs(out: &mut impl Write, text: &[u8]) -> io::Result<()> {
    let begun = scenario::start(text);
    if begun.outcome.is_err() {
        return Ok(());
    }
    let mut repeated = step::repeat(begun.record, 0, 0, 0);
    print_run(out, 0, &repeated)?;
    for number in 1..=ENTRY_LIMIT {
        let Ok(entry) = scenario::pumping_entry(text, number) else {
            break;
        };
        repeated = step::repeat(repeated.record, entry.rate, entry.length, entry.repeats);
        print_run(out, number, &repeated)?;
    }
    Ok(())
}

fn print_text(out: &mut impl Write, text: &[u8]) -> io::Result<()> {
    print_start(out, text)?;
    print_entries(out, text)?;
    print_states(out, text, false)?;
    print_states(out, text, true)?;
    print_runs(out, text)?;
    listing_print::print_listing(out, text)
}

// The text of the file that an argument names.
fn print_file(rt: &impl Files, out: &mut impl Write, name: &str) -> io::Result<()> {
    // one byte more than a text may have
    let mut text = [0u8; TEXT_LIMIT + 1];
    let got = read_argument(rt, out, name, &mut text)?;
    print_text(out, &text[..got])
}

fn main(rt: HostRuntime) -> io::Result<()> {
    let mut out = BufWriter::new(rt.alloc(), io::writer(&rt))?;
    for name in env::args(&rt)?.skip(1) {
        print_file(&rt, &mut out, name.as_str())?;
    }
    out.flush()
}
