// Whether two records have equal layer and column counts and equal drawdowns at the well and in column 1 of layers 1 and 2, as the reading gives
// them. Bore K has no other places: of it that is what document 01 called the same.
use check_print::print_refusal;
use read_drawdown::drawdown;
use readings::Place;
use record::Record;
use refusals::Refusal;
use std::io::{self, Write};

// Whether the drawdowns at a place are equal; not where one is refused.
fn equal_at(one: &Record, other: &Record, place: Place) -> bool {
    let depth = drawdown(*one, place);
    depth.is_ok() && depth == drawdown(*other, place)
}

// An error where a record has no drawdown of the well.
fn equal(one: &Record, other: &Record) -> Result<bool, Refusal> {
    drawdown(*one, Place::Well)?;
    drawdown(*other, Place::Well)?;
    let places = [Place::Well, Place::Cell(1, 1), Place::Cell(2, 1)];
    Ok(
        one.site.layers == other.site.layers
            && one.site.columns == other.site.columns
            && places.iter().all(|place| equal_at(one, other, *place)),
    )
}

pub fn print_equal(out: &mut impl Write, one: &Record, other: &Record) -> io::Result<()> {
    match equal(one, other) {
        Ok(same) => write!(out, " {}", same as u64),
        Err(refusal) => print_refusal(out, refusal),
    }
}
