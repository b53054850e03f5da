// The limits and sizes of document 01, as document 02 changes them, each once and under a name, in the order of its sections. What the definitions
// call them is in specs/.
#![tactic(auto)]

// The scenario text: bytes, and digits of a number.
pub const TEXT_LIMIT: usize = 65536;

pub const DIGIT_LIMIT: usize = 18;

// How many layers, columns and screen loss coefficients there can be, and so how many slots an array by one of them has; slots by cell.
pub const LAYER_PLACES: usize = 20;

pub const COLUMN_PLACES: usize = 50;

pub const COEFFICIENT_PLACES: usize = 2;

pub const CELL_PLACES: usize = 1000;

// Pumping entries.
pub const ENTRY_LIMIT: u64 = 500;

// Numbers that a reading of the text keeps: one more than the most that a scenario has.
pub const NUMBER_PLACES: usize = 1662;

// A layer's numbers: thickness, mm; conductivities, nm/s; specific yield of layer 1, millionths; specific storage below it, 10^-9 per m.
pub const THICKNESS_LIMIT: u64 = 1_000_000;

pub const CONDUCTIVITY_LIMIT: u64 = 100_000_000;

pub const YIELD_LIMIT: u64 = 100_000_000;

pub const SPECIFIC_STORAGE_LIMIT: u64 = 1_000_000;

// Radius of a column, mm; the well's radius, mm, free water area, mm², intake depth, mm, and friction factor, millionths; a screen loss coefficient,
// millionths; repeats of a pumping entry.
pub const RADIUS_LIMIT: u64 = 2_000_000;

pub const WELL_RADIUS_LEAST: u64 = 10;

pub const WELL_RADIUS_LIMIT: u64 = 5_000;

pub const WATER_AREA_LIMIT: u64 = 1_000_000_000;

pub const INTAKE_LIMIT: u64 = 1_000_000;

pub const FRICTION_LIMIT: u64 = 1_000_000;

pub const COEFFICIENT_LIMIT: u64 = 1_000_000_000_000;

pub const REPEAT_LIMIT: u64 = 1_000_000;

// Rule 4: how many times as large as the one before it twice a midsection radius may be.
pub const MIDSECTION_FACTOR: u64 = 9;

// C of a face, 10^-12 m²/s, and S of a cell, nl per m of drawdown.
pub const CONDUCTANCE_LIMIT: u64 = 1_000_000_000_000_000;

pub const STORAGE_LIMIT: u64 = 1_000_000_000_000_000_000;

// Pumping rate, ml/s; length of a step, µs; pumped total, nl, and time, µs; D of a place, µm.
pub const RATE_LIMIT: u64 = 10_000_000;

pub const LENGTH_LIMIT: u64 = 1_000_000_000;

pub const TOTAL_LIMIT: u64 = 4_000_000_000_000_000_000;

pub const DRAWDOWN_LIMIT: u64 = 1_000_000_000;

// The controller's choice (document 02, N13): rates on its list, and steps in a row.
pub const CHOICE_RATE_LIMIT: usize = 16;

pub const CHOICE_STEP_LIMIT: u64 = 1_000_000;
