// The changes, by group and number. Each is one number that document 01 limits, at its last allowed and its first forbidden value, or a few
// numbers that go together; in the group `waters` one that is allowed, by one.
// Where a change of R_0, R_1, b_2 or Kv_2 would else be refused for the C between layers 1 and 2 (document 02, N6), it has the C with it that
// bore K then keeps, 2×A_1×Kv_2/b_2, rounded down; that of R_0 to 5001 has the largest grid's.
// Changed losses have a mark with them (document 02, N1) that is no less than the drawdowns that bore K then has, so that a change is refused
// for what it is there for; one that is less is in the group `marks`, and where no word holds the drawdown.
// A match by number is no plainer as an enum: the number of a change is what is printed, and tests/stored has it.
use record::Record;
use site::Site;

// Counts of layers, columns and coefficients.
pub fn counts(mut rec: Record, case: u64) -> Record {
    let site = &mut rec.site;
    match case {
        1 => site.layers = 1,
        2 => site.layers = 2,
        3 => site.layers = 3,
        4 => site.layers = 20,
        5 => site.layers = 21,
        6 => site.layers = u64::MAX,
        7 => site.columns = 1,
        8 => site.columns = 2,
        9 => site.columns = 3,
        10 => site.columns = 50,
        11 => site.columns = 51,
        12 => site.columns = u64::MAX,
        13 => site.loss_count = 1,
        14 => site.loss_count = 2,
        15 => site.loss_count = 3,
        16 => site.loss_count = u64::MAX,
        _ => {}
    }
    rec
}

// Limits of the layers' numbers.
pub fn layers(mut rec: Record, case: u64) -> Record {
    let site = &mut rec.site;
    match case {
        1 => site.thickness[0] = 1000000,
        2 => site.thickness[0] = 1000001,
        3 => site.thickness[1] = 0,
        4 => site.thickness[1] = 1,
        5 => site.thickness[1] = 1000000,
        6 => site.thickness[1] = 1000001,
        7 => site.screened[1] = 2,
        8 => site.kh[0] = 0,
        9 => site.kh[0] = 100000000,
        10 => site.kh[0] = 100000001,
        11 => site.kv[1] = 0,
        12 => site.kv[1] = 100000000,
        13 => site.kv[1] = 100000001,
        14 => site.storage[0] = 0,
        15 => site.storage[0] = 1,
        16 => site.storage[0] = 100000000,
        17 => site.storage[0] = 100000001,
        18 => site.storage[1] = 0,
        19 => site.storage[1] = 1,
        20 => site.storage[1] = 1000000,
        21 => site.storage[1] = 1000001,
        _ => {}
    }
    // the C between layers 1 and 2 that goes with those changes
    match case {
        4 => rec.vertical[0] = 15079640000,
        5 => rec.vertical[0] = 15079,
        6 => rec.vertical[0] = 15079,
        11 => rec.vertical[0] = 0,
        12 => rec.vertical[0] = 75398200000,
        13 => rec.vertical[0] = 75398200753,
        _ => {}
    }
    rec
}

// R_1 and R_2.
fn set_radii(site: &mut Site, first: u64, second: u64) {
    site.radii[0] = first;
    site.radii[1] = second;
}

// Limits of the radii and of the well's numbers; rules 4 and 5.
pub fn numbers(mut rec: Record, case: u64) -> Record {
    let site = &mut rec.site;
    match case {
        1 => site.radii[49] = 2000000,
        2 => site.radii[49] = 2000001,
        3 => site.well_radius = 9,
        4 => site.well_radius = 10,
        5 => site.well_radius = 5000,
        6 => site.well_radius = 5001,
        7 => site.intake = 0,
        8 => site.intake = 1,
        9 => site.intake = 1000000,
        10 => site.intake = 1000001,
        11 => site.friction = 0,
        12 => site.friction = 1000000,
        13 => site.friction = 1000001,
        // u_1 against u_0 from below and from above, and u_2 against u_1
        14 => site.well_radius = 29,
        15 => site.well_radius = 30,
        16 => set_radii(site, 1700, 2600),
        17 => set_radii(site, 1701, 2600),
        18 => site.radii[1] = 500,
        19 => site.radii[1] = 501,
        20 => site.radii[1] = 4900,
        21 => site.radii[1] = 4901,
        22 => site.intake = 9999,
        23 => site.intake = 10000,
        24 => site.screened[0] = 1,
        25 => site.screened[1] = 0,
        26 => set_radii(site, 499, 4900),
        27 => set_radii(site, 500, 1301),
        _ => {}
    }
    // the C between layers 1 and 2 that goes with those changes
    match case {
        // the largest grid's, since no other text has so wide a well
        6 => rec.vertical[0] = 4251,
        14 => rec.vertical[0] = 7827560,
        15 => rec.vertical[0] = 7825700,
        16 => rec.vertical[0] = 90477860,
        17 => rec.vertical[0] = 90584710,
        26 => rec.vertical[0] = 7508430,
        27 => rec.vertical[0] = 7539820,
        _ => {}
    }
    rec
}

// Slots of the scenario's numbers that no layer, column or coefficient uses.
pub fn unused(mut rec: Record, case: u64) -> Record {
    let site = &mut rec.site;
    match case {
        1 => site.thickness[2] = 1,
        2 => site.thickness[19] = 1,
        3 => site.screened[2] = 1,
        4 => site.screened[19] = 1,
        5 => site.kh[2] = 1,
        6 => site.kh[19] = 1,
        7 => site.kv[2] = 1,
        8 => site.kv[19] = 1,
        9 => site.storage[2] = 1,
        10 => site.storage[19] = 1,
        11 => site.radii[2] = 1,
        12 => site.radii[49] = 1,
        13 => site.loss_coefficients[0] = 1,
        14 => site.loss_coefficients[1] = 1,
        _ => {}
    }
    rec
}

// Numbers that the C between layers 1 and 2 is worked from, changed without it: b_2, Kv_2, radii (R_49 is the largest grid's) and Kv_1 to
// 0. Then numbers that have no part in it: Kv_1 above 0, within its limit and over it, b_1, and the last radius.
pub fn alone(mut rec: Record, case: u64) -> Record {
    let site = &mut rec.site;
    match case {
        1 => site.thickness[1] = 1,
        2 => site.thickness[1] = 1000000,
        3 => site.kv[1] = 0,
        4 => site.kv[1] = 100000000,
        5 => site.well_radius = 30,
        6 => set_radii(site, 1700, 2600),
        7 => set_radii(site, 499, 1300),
        8 => site.radii[48] = 1774145,
        9 => site.kv[0] = 0,
        10 => site.kv[0] = 1,
        11 => site.kv[0] = 100000000,
        12 => site.kv[0] = 100000001,
        13 => site.thickness[0] = 10001,
        14 => site.radii[49] = 1999999,
        _ => {}
    }
    rec
}

// The well's free water area with the S that goes with it, that S alone; no screened layer and so no C at the well; a second coefficient.
pub fn well(before: Record, case: u64) -> Record {
    match case {
        1 => with_area(before, 0, 0),
        2 => with_area(before, 1, 1000000),
        3 => with_area(before, 1000000000, 1000000000000000),
        4 => with_area(before, 1000000001, 1000000001000000),
        5 => with_area(before, 30000, 29999999999),
        6 => with_area(before, 30000, 30000000000),
        7 => with_area(before, 30000, 30000000001),
        8 => without_screen(before),
        9 => with_coefficient(before, 1000000000000),
        10 => with_coefficient(before, 1000000000001),
        _ => before,
    }
}

fn with_area(mut rec: Record, area: u64, storage: u64) -> Record {
    rec.site.water_area = area;
    rec.well_storage = storage;
    rec
}

fn without_screen(mut rec: Record) -> Record {
    rec.site.screened[1] = 0;
    rec.screen[1] = 0;
    rec
}

fn with_coefficient(mut rec: Record, coefficient: u64) -> Record {
    rec.site.loss_count = 2;
    rec.site.loss_coefficients[1] = coefficient;
    rec
}

// C in its limits, below layer 2 also where there is no layer 3; then in slots of layers without screen, of the last column, of no layer,
// and below the deepest one.
pub fn conductances(mut rec: Record, case: u64) -> Record {
    match case {
        1 => rec.screen[1] = 0,
        2 => rec.screen[1] = 1000000000000000,
        3 => rec.screen[1] = 1000000000000001,
        4 => rec.screen[1] = u64::MAX,
        5 => rec.horizontal[0] = 0,
        6 => rec.horizontal[0] = 1000000000000000,
        7 => rec.horizontal[0] = 1000000000000001,
        8 => rec.horizontal[50] = u64::MAX,
        9 => rec.vertical[50] = 0,
        10 => rec.vertical[50] = 1000000000000000,
        11 => rec.vertical[50] = 1000000000000001,
        12 => rec.vertical[50] = u64::MAX,
        13 => rec.screen[0] = 1,
        14 => rec.screen[2] = 1,
        15 => rec.screen[19] = 1,
        16 => rec.horizontal[1] = 1,
        17 => rec.horizontal[100] = 1,
        18 => rec.horizontal[999] = 1,
        19 => rec.vertical[1] = 1,
        20 => rec.vertical[50] = 1,
        21 => rec.vertical[100] = 1,
        22 => rec.vertical[999] = 1,
        _ => {}
    }
    rec
}

// S in its limits, then in slots of the last column and of no layer.
pub fn storages(mut rec: Record, case: u64) -> Record {
    match case {
        1 => rec.storages[0] = 0,
        2 => rec.storages[0] = 1,
        3 => rec.storages[0] = 1000000000000000000,
        4 => rec.storages[0] = 1000000000000000001,
        5 => rec.storages[50] = 0,
        6 => rec.storages[50] = 1,
        7 => rec.storages[50] = 1000000000000000000,
        8 => rec.storages[50] = 1000000000000000001,
        9 => rec.storages[1] = 1,
        10 => rec.storages[100] = 1,
        11 => rec.storages[999] = 1,
        _ => {}
    }
    rec
}

// What a step moves: V of bore K's places, which are the well and column 1 of layers 1 and 2, the totals, and the mark.
fn with_state(
    before: Record,
    well: i64,
    upper: i64,
    lower: i64,
    inflow: i64,
    pumped: u64,
    time: u64,
    mark: i64,
) -> Record {
    let mut rec = before;
    rec.well_loss = well;
    rec.losses[0] = upper;
    rec.losses[50] = lower;
    rec.inflow = inflow;
    rec.pumped = pumped;
    rec.time = time;
    rec.mark = mark;
    rec
}

// Losses and inflow that do not add up to the pumped total, are negative, or stand in a slot that no cell uses. The narrow well's layer 2 is
// 3 µm deep in the first seven.
pub fn sums(before: Record, case: u64) -> Record {
    match case {
        1 => with_state(before, 10, 20, 30, 40, 100, 0, 3),
        2 => with_state(before, 10, 20, 30, 40, 99, 0, 3),
        3 => with_state(before, 10, 20, 30, 40, 101, 0, 3),
        4 => with_state(before, 11, 20, 30, 40, 100, 0, 3),
        5 => with_state(before, 10, 21, 30, 40, 100, 0, 3),
        6 => with_state(before, 10, 20, 31, 40, 100, 0, 3),
        7 => with_state(before, 10, 20, 30, 41, 100, 0, 3),
        8 => with_state(before, 0, 0, 0, 0, 0, 0, 0),
        9 => with_state(before, -1, 0, 0, 1, 0, 0, 0),
        10 => with_state(before, 1, -1, 0, 0, 0, 0, 0),
        11 => with_state(before, 1, 0, -1, 0, 0, 0, 0),
        12 => with_state(before, 1, 0, 0, -1, 0, 0, 0),
        13 => with_state(before, 0, 0, 0, i64::MIN, 0, 0, 0),
        // these add up to 2^64
        14 => with_state(before, i64::MAX, 2, 0, i64::MAX, 0, 0, 307445734561825),
        15 => with_loss(before, 1, 1, 0, 1, 0),
        16 => with_loss(before, 1, -1, 1, 0, 0),
        17 => with_loss(before, 100, 1, 0, 1, 0),
        18 => with_loss(before, 999, 1, 0, 1, 0),
        _ => before,
    }
}

// A loss in a slot that no cell of bore K uses, with the totals and the mark that go with it.
fn with_loss(
    before: Record,
    slot: usize,
    loss: i64,
    inflow: i64,
    pumped: u64,
    mark: i64,
) -> Record {
    let mut rec = with_state(before, 0, 0, 0, inflow, pumped, 0, mark);
    if slot < 1000 {
        rec.losses[slot] = loss;
    }
    rec
}

// All that was pumped came from the last column.
fn with_totals(before: Record, inflow: i64, pumped: u64, time: u64) -> Record {
    with_state(before, 0, 0, 0, inflow, pumped, time, 0)
}

// The pumped total and the time at their limit, and where the step that is tried brings them there.
pub fn totals(before: Record, case: u64) -> Record {
    match case {
        1 => with_totals(before, 4000000000000000000, 4000000000000000000, 0),
        2 => with_totals(before, 4000000000000000001, 4000000000000000001, 0),
        3 => with_totals(before, 3999999999500000000, 3999999999500000000, 0),
        4 => with_totals(before, 3999999999500000001, 3999999999500000001, 0),
        5 => with_totals(before, 0, 0, 4000000000000000000),
        6 => with_totals(before, 0, 0, 4000000000000000001),
        7 => with_totals(before, 0, 0, 3999999999999500000),
        8 => with_totals(before, 0, 0, 3999999999999500001),
        _ => before,
    }
}

// V of the well alone, which is all that was pumped, and the mark.
fn with_well_loss(before: Record, loss: i64, pumped: u64, mark: i64) -> Record {
    with_state(before, loss, 0, 0, 0, pumped, 0, mark)
}

// V of column 1 of layers 1 and 2 alone, which together are all that was pumped, and the mark.
fn with_cell_losses(before: Record, upper: i64, lower: i64, pumped: u64, mark: i64) -> Record {
    with_state(before, 0, upper, lower, 0, pumped, 0, mark)
}

fn with_storages(mut rec: Record, upper: u64, lower: u64) -> Record {
    rec.storages[0] = upper;
    rec.storages[50] = lower;
    rec
}

// Drawdowns at their bounds, the mark as deep: of bore K's well at 1000×p; of a layer 1 like bore K's at its bottom, and of layer 2 at 10^9; one
// that no word holds, and one that would be 0 in a word; of bore K's cells at 1000×p; of the deep intake's well at 10^9. Since a cell deeper
// than 1000×p is refused whatever the mark is, bore K itself shows neither that bottom nor 10^9: the deep intake does, and the largest grid 10^9.
pub fn depths(before: Record, case: u64) -> Record {
    // 1 nl to a µm
    let thin = with_storages(before, 1000000, 1000000);
    let empty = with_storages(before, 1000000, 1);
    match case {
        1 => with_well_loss(before, 299970029999, 299970029999, 9999000),
        2 => with_well_loss(before, 299970030000, 299970030000, 9999001),
        3 => with_cell_losses(thin, 10000000, 0, 10000000, 10000000),
        4 => with_cell_losses(thin, 10000001, 0, 10000001, 10000001),
        5 => with_cell_losses(thin, 0, 1000000000, 1000000000, 1000000000),
        6 => with_cell_losses(thin, 0, 1000000001, 1000000001, 1000000001),
        7 => with_cell_losses(empty, 0, 4000000000000000000, 4000000000000000000, i64::MAX),
        8 => with_cell_losses(empty, 0, 288230376151711744, 288230376151711744, 0),
        9 => with_cell_losses(thin, 9999000, 0, 9999000, 9999000),
        10 => with_cell_losses(thin, 9999001, 0, 9999001, 9999001),
        11 => with_cell_losses(thin, 0, 9999000, 9999000, 9999000),
        12 => with_cell_losses(thin, 0, 9999001, 9999001, 9999001),
        13 => with_well_loss(before, 30000000029999, 30000000029999, 1000000000),
        14 => with_well_loss(before, 30000000030000, 30000000030000, 1000000001),
        _ => before,
    }
}

// The slot of the C between layers 1 and 2 at its value for bore K and beside it, at document 01's value, at the C in use while layer 1 is
// full, and at the limits of C; then that of the largest grid's last stored column, at its value and beside it.
pub fn below(mut rec: Record, case: u64) -> Record {
    match case {
        1 => rec.vertical[0] = 7539820,
        2 => rec.vertical[0] = 7539819,
        3 => rec.vertical[0] = 7539821,
        4 => rec.vertical[0] = 1256636,
        5 => rec.vertical[0] = 685438,
        6 => rec.vertical[0] = 0,
        7 => rec.vertical[0] = 1000000000000000,
        8 => rec.vertical[0] = 1000000000000001,
        9 => rec.vertical[0] = u64::MAX,
        10 => rec.vertical[48] = 421452524,
        11 => rec.vertical[48] = 421452523,
        12 => rec.vertical[48] = 421452525,
        _ => {}
    }
    rec
}

// Kv_1 and Kv_2 with the C between layers 1 and 2 that goes with them.
fn with_verticals(mut rec: Record, upper: u64, lower: u64, c: u64) -> Record {
    rec.site.kv[0] = upper;
    rec.site.kv[1] = lower;
    rec.vertical[0] = c;
    rec
}

// The water table at the bottom of layer 1, above a layer 2 that is full and above one that is deeper, 1 µm above the bottom, and halfway;
// another Kv_1; then a Kv of 0, with the table at the bottom and as it was. Bore K's table cannot be at the bottom, since its intake is above
// it; that of the deep intake can, whose layers 1 and 2 have the S of bore K's and the same C between them. Then bore K's table as deep as its
// intake, one 1 mm above that over a layer 2 that is as deep as the intake, another Kv_1, and a Kv_1 of 0.
pub fn tables(before: Record, case: u64) -> Record {
    let bottom = with_cell_losses(before, 1507964000000, 0, 1507964000000, 10000000);
    let halfway = with_cell_losses(before, 753982000000, 0, 753982000000, 5000000);
    let intake = with_cell_losses(before, 1507813203600, 0, 1507813203600, 9999000);
    match case {
        1 => bottom,
        2 => with_cell_losses(before, 1507964000000, 18095568000, 1526059568000, 12000000),
        3 => with_cell_losses(before, 1507963849204, 0, 1507963849204, 9999999),
        4 => halfway,
        5 => with_verticals(bottom, 1, 5000000, 7539820),
        6 => with_verticals(halfway, 1, 10000, 7539820),
        7 => with_verticals(bottom, 0, 10000, 0),
        8 => with_verticals(bottom, 10000, 0, 0),
        9 => with_verticals(bottom, 0, 0, 0),
        10 => with_verticals(before, 0, 10000, 0),
        11 => intake,
        12 => with_cell_losses(before, 1507662407200, 15078132036, 1522740539236, 9999000),
        13 => with_verticals(intake, 1, 10000, 7539820),
        14 => with_verticals(intake, 0, 10000, 0),
        _ => before,
    }
}

fn with_mark(mut rec: Record, mark: i64) -> Record {
    rec.mark = mark;
    rec
}

// The mark alone: at bore K's drawdown of the well and under it, at what the step that is tried brings that to and over it; at 1000×p and over
// it, for bore K, for an intake of 16, of 17 and of 1,000,000 mm; 0, negative, and at the ends of a word. Then with losses.
pub fn marks(before: Record, case: u64) -> Record {
    match case {
        1 => with_mark(before, 33015),
        2 => with_mark(before, 33014),
        3 => with_mark(before, 49173),
        4 => with_mark(before, 49174),
        5 => with_mark(before, 9999000),
        6 => with_mark(before, 9999001),
        7 => with_mark(before, 16000),
        8 => with_mark(before, 16001),
        9 => with_mark(before, 17000),
        10 => with_mark(before, 17001),
        11 => with_mark(before, 1000000000),
        12 => with_mark(before, 1000000001),
        13 => with_mark(before, 0),
        14 => with_mark(before, -1),
        15 => with_mark(before, i64::MIN),
        16 => with_mark(before, i64::MAX),
        _ => marks_of_losses(before, case),
    }
}

// The mark with losses: the well just under and at 1 µm; a cell of layer 1, one of layer 2, and that with a deeper well; a cell at 1000×p and
// over it; a cell of the largest grid's last stored column, in its topmost and in its deepest layer.
fn marks_of_losses(before: Record, case: u64) -> Record {
    match case {
        17 => with_well_loss(before, 29999, 29999, 0),
        18 => with_well_loss(before, 30000, 30000, 0),
        19 => with_well_loss(before, 30000, 30000, 1),
        20 => with_cell_losses(before, 1507964000, 0, 1507964000, 10000),
        21 => with_cell_losses(before, 1507964000, 0, 1507964000, 9999),
        22 => with_cell_losses(before, 0, 15079640, 15079640, 10000),
        23 => with_cell_losses(before, 0, 15079640, 15079640, 9999),
        24 => with_state(before, 600000000, 0, 15079640, 0, 615079640, 0, 20000),
        25 => with_state(before, 600000000, 0, 15079640, 0, 615079640, 0, 19999),
        26 => with_cell_losses(before, 0, 15078132036, 15078132036, 9999000),
        27 => with_cell_losses(before, 0, 15078133544, 15078133544, 9999001),
        28 => with_cell_losses(before, 0, 15078133544, 15078133544, 9999000),
        29 => with_loss(before, 48, 421452524710, 0, 421452524710, 1),
        30 => with_loss(before, 48, 421452524710, 0, 421452524710, 0),
        31 => with_loss(before, 998, 210726263, 0, 210726263, 1),
        32 => with_loss(before, 998, 210726263, 0, 210726263, 0),
        _ => before,
    }
}

fn set_screen_loss(site: &mut Site, count: u64, first: u64) {
    site.loss_count = count;
    site.loss_coefficients[0] = first;
}

// For same (document 02, N10): bore K as its first entry leaves it; 1 nl from one place to another, or between a place and the last column; 1 nl
// more of pumped and inflow total; the time; the mark; a well that has recovered, and the same that was never so deep. Then C and S, and numbers of
// the scenario. All are allowed of bore K. But for the recovered well no drawdown is another, and each differs from bore K or from the change
// before it in one number, or in two that keep the sum.
pub fn waters(before: Record, case: u64) -> Record {
    match case {
        1 => with_state(before, 990468379, 0, 9531621, 0, 1000000000, 1000000, 33015),
        2 => with_state(before, 990468378, 1, 9531621, 0, 1000000000, 1000000, 33015),
        3 => with_state(before, 990468380, 0, 9531620, 0, 1000000000, 1000000, 33015),
        4 => with_state(before, 990468379, 0, 9531620, 1, 1000000000, 1000000, 33015),
        5 => with_state(before, 990468378, 0, 9531621, 1, 1000000000, 1000000, 33015),
        6 => with_state(before, 990468379, 0, 9531621, 1, 1000000001, 1000000, 33015),
        7 => with_state(before, 990468379, 0, 9531621, 0, 1000000000, 1000001, 33015),
        8 => with_state(before, 990468379, 0, 9531621, 0, 1000000000, 999999, 33015),
        9 => with_state(before, 990468379, 0, 9531621, 0, 1000000000, 1000000, 33016),
        10 => with_state(before, 0, 0, 0, 1000000000, 1000000000, 1000000, 33015),
        11 => with_state(before, 0, 0, 0, 1000000000, 1000000000, 1000000, 0),
        12..=16 => other_coefficient(before, case),
        _ => other_number(before, case),
    }
}

// One C or S of bore K, by one.
fn other_coefficient(mut rec: Record, case: u64) -> Record {
    match case {
        12 => rec.screen[1] = 1143840362,
        13 => rec.horizontal[0] = 5719201804,
        14 => rec.horizontal[50] = 1143840362,
        15 => rec.storages[0] = 150796400001,
        16 => rec.storages[50] = 1507964001,
        _ => {}
    }
    rec
}

// One number of bore K's scenario, by one, of those that have no part in the C between layers 1 and 2: friction; one coefficient more, which is 0,
// that coefficient 1, and a second one, which is 0; intake, b_1, Kh_2, Kv_1, yield and storage, and the last radius.
fn other_number(mut rec: Record, case: u64) -> Record {
    let site = &mut rec.site;
    match case {
        17 => site.friction = 50001,
        18 => set_screen_loss(site, 1, 0),
        19 => set_screen_loss(site, 1, 1),
        20 => set_screen_loss(site, 2, 1),
        21 => site.intake = 9998,
        22 => site.thickness[0] = 10001,
        23 => site.kh[1] = 100001,
        24 => site.kv[0] = 10001,
        25 => site.storage[0] = 200001,
        26 => site.storage[1] = 999999,
        27 => site.radii[1] = 1301,
        _ => {}
    }
    rec
}
