// Which records 14 refuses, whatever stands in them.
#![tactic(auto)]

ghost use Rattle.std.specs.Prelude.{◌≡◌};
ghost use Rattle.validity.specs.Validity.{valid};

use record::Record;

// Whether 14 lets a record pass.
#[tactic(auto, using(crate::proofs::Checked::tests))]
pub fn valid(record: Record) -> bool
    ensures { result ≡ valid «record» }
{
    validity_numbers::numbers_hold(record.site)
        && coefficient_slots::coefficients_hold(&record)
        && record.well_storage == geometry::well_storage(record.site.water_area)
        && validity_table::table_kept(&record)
        && validity_totals::totals_hold(&record)
        && validity_drawdowns::drawdowns_hold(
            &record,
            1000 * record.site.thickness[0],
            1000 * record.site.intake,
        )
}
