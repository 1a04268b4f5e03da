//! The bytes that stand before the bundles of a campaign.
ghost use Rattle.std.specs.Prelude.{◌≡◌, ◌++◌, ◌∷◌, []};
ghost use Rattle.std.specs.Int.{w32, to_be_bytes};
ghost use Rattle.gen_campaign.specs.CampaignSpelling.{campaign_mark};

use crate::campaigns::CAMPAIGN_MARK;

/// The number of bytes before the first bundle of several runs.
pub const CAMPAIGN_FRONT: usize = 5;

/// Returns the bytes that stand before the bundles of this many runs: `SMC2` and the number of runs. With
/// them and the spellings of the bundles a campaign is written without a copy of these spellings.
pub fn several_front(runs: u8) -> [u8; 5]
    ensures { result ≡ to_be_bytes w32 campaign_mark ++ runs ∷ [] }
{
    let [a, b, c, d] = CAMPAIGN_MARK.to_be_bytes();
    [a, b, c, d, runs]
}
