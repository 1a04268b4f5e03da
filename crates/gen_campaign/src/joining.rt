//! Which runs may stand in one campaign.
ghost use Rattle.std.specs.Prelude.{◌≡◌};
ghost use Rattle.gen_campaign.specs.CampaignReading.{joins, may_join};

use gen_audit::Bundle;
use gen_net::Header;

/// Whether a run with `header` may stand behind a run with `before` in one campaign: both have the same
/// number of generals and the same roots, the slot is not less, and the headers differ.
fn joins(before: &Header, header: &Header) -> bool
    ensures { result ≡ joins before.now header.now }
{
    before.net().generals() == header.net().generals()
        && before.roots() == header.roots()
        && before.slot() <= header.slot()
        && before != header
}

/// Whether a run with this header may stand behind each of these runs in one campaign.
pub fn may_join(before: &[Bundle], header: &Header) -> bool
    ensures { result ≡ may_join before.now header.now }
{
    before.iter().all(|run| joins(run.header(), header))
}
