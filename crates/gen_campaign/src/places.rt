//! The places of runs in a campaign.
ghost use Rattle.std.specs.Prelude.{◌≡◌};
ghost use Rattle.std.specs.List.{position};
ghost use Rattle.gen_net.specs.SameHeaders.{same_header};
ghost use Rattle.gen_campaign.specs.CampaignPlaces.{PlacesNameRuns, place_of};

use gen_audit::Bundle;
use gen_net::Header;

/// Returns the index of the first run with this header, and None if there is none.
fn first_with(bundles: &[Bundle], header: &Header) -> Option<usize>
    ensures { result ≡ position (λ b. same_header b.header header.now) bundles.now }
{
    bundles.iter().position(|run| run.header() == header)
}

/// Returns the place of the run with this header, counted from 0, or the number of all runs if none has
/// it.
pub fn place_of(bundles: &[Bundle], header: &Header) -> usize
    ensures { result ≡ place_of bundles.now header.now }
{
    match first_with(bundles, header) {
        None => bundles.len(),
        Some(place) => place,
    }
}

/// States that among the runs of a campaign the place of a run's header is the place of that run, since no
/// two runs have the same header.
///
/// A law: a function with an empty body, whose caller knows what it ensures.
pub fn places_name_runs()
    ensures { PlacesNameRuns }
{}
