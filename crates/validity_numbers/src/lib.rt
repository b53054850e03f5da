// The scenario's numbers in a record, and the slots that none of them uses.
#![tactic(auto)]

ghost use Rattle.std.specs.Prelude.{◌≡◌, ◌&&◌};
ghost use Rattle.site.specs.Site.{counts_hold};
ghost use Rattle.validity_numbers.specs.Numbers.{zero_from, site_unused, site_holds};

use site::Site;

// Whether the slots from n on hold 0.
fn zero_from(n: usize, numbers: &[u64]) -> bool
    ensures { result ≡ zero_from n numbers.now }
{
    numbers.iter().skip(n).all(|x| *x == 0)
}

// Whether slots that no layer, column or coefficient uses hold 0.
#[tactic(auto, unfolding(crate::specs::Numbers::site_unused))]
fn site_unused(site: Site) -> bool
    ensures { result ≡ site_unused site }
{
    let n = site.layers as usize;
    zero_from(n, &site.thickness)
        && zero_from(n, &site.screened)
        && zero_from(n, &site.kh)
        && zero_from(n, &site.kv)
        && zero_from(n, &site.storage)
        && zero_from(site.columns as usize, &site.radii)
        && zero_from(site.loss_count as usize, &site.loss_coefficients)
}

#[tactic(auto, unfolding(site::specs::Site::counts_hold))]
fn counts_hold(site: Site) -> bool
    ensures { result ≡ counts_hold site }
{
    site::layer_count(site.layers)
        && site::column_count(site.columns)
        && site::coefficient_count(site.loss_count)
}

// Counts, then what is judged by them: the numbers' limits, rules 4 and 5.
#[tactic(auto, unfolding(crate::specs::Numbers::site_holds))]
fn site_holds(site: Site) -> bool
    ensures { result ≡ site_holds site }
{
    counts_hold(site)
        && site::numbers_hold(site)
        && site::radii_hold(site)
        && site::screen_holds(site)
}

// Whether a record's numbers are those of a scenario, with 0 in the slots besides.
pub fn numbers_hold(site: Site) -> bool
    ensures { result ≡ (site_holds site && site_unused site) }
{
    site_holds(site) && site_unused(site)
}
