// Whether a record keeps, as its C between layers 1 and 2, the value at s = 0 (document 02, N6). C is in 10^-12 m²/s, areas in mm², thicknesses in mm,
// Kv in nm/s.
#![tactic(auto)]

ghost use Rattle.std.specs.Prelude.{◌≡◌, ◌≤◌, ◌<◌, ◌^◌, eqb};
ghost use Rattle.geometry.specs.Geometry.{from_table};
ghost use Rattle.coefficient_cells.specs.Worked.{InLimits};
ghost use Rattle.validity_table.specs.Table.{table_kept};

use coefficient_cells::areas_of;
use geometry::from_table;
use record::Record;

// Whether C of one column is that value.
#[tactic(auto, unfolding(words::specs::Fitted::fitted))]
fn slot_kept(c: u64, a: u64, kv1: u64, b2: u64, kv2: u64) -> bool
    requires { (a ≤ 2 ^ 44) × (kv1 ≤ 100000000) × (0 < b2) × (b2 ≤ 1000000) × (kv2 ≤ 100000000) }
    ensures { result ≡ eqb c (from_table a kv1 b2 kv2 0) }
{
    from_table(a, kv1, b2, kv2, 0) == Some(c)
}

// Whether C of every column before the last is.
pub fn table_kept(rec: &Record) -> bool
    requires { InLimits rec.now.site }
    ensures { result ≡ table_kept rec.now.site rec.now.vertical }
{
    let areas = areas_of(rec.site);
    for k in 0..rec.site.columns as usize - 1 {
        if !slot_kept(
            rec.vertical[k],
            areas[k + 1],
            rec.site.kv[0],
            rec.site.thickness[1],
            rec.site.kv[1],
        ) {
            return false;
        }
    }
    true
}
