//! Laws of campaigns. Each is a function that does nothing and whose contract is the law: a caller that
//! calls it knows the law.
ghost use Rattle.std.specs.Prelude.{◌≡◌, Ok};
ghost use Rattle.gen_types.specs.Spelled.{HasOneSpelling};
ghost use Rattle.gen_campaign.specs.Campaign.{CampaignBundle, IsCampaign};
ghost use Rattle.gen_campaign.specs.CampaignReading.{whole_campaign};
ghost use Rattle.gen_campaign.specs.CampaignSpelling.{campaign_spelling};
ghost use Rattle.gen_campaign.specs.JoinsTested.{JoinsDecides};
ghost use Rattle.gen_campaign.specs.Judged.{OtherSlotsConvictNobody};
ghost use Rattle.gen_campaign.specs.OneBundle.{OneBundleAsBefore};

use gen_convict::laws::first_rivals;

/// States that what is shown of a campaign has one spelling, and that no spelling is the beginning of
/// another (`one`). What is written is read again (`again`).
pub fn one_campaign_spelling()
    ensures one { HasOneSpelling IsCampaign campaign_spelling }
    ensures again { (c : CampaignBundle) → IsCampaign c → whole_campaign (campaign_spelling c) ≡ Ok c }
{}

/// States that bytes that do not begin with `SMC2` are read as `read_bundle` of `gen_audit` reads them. A
/// bundle that it reads stands alone, and its faults are answered.
pub fn one_bundle_is_as_before()
    ensures { OneBundleAsBefore }
{}

/// States that the test whether a run may stand behind another in one campaign is true if and only if the
/// run may.
pub fn joins_is_tested()
    ensures { JoinsDecides }
{}

/// States that runs with different slots convict nobody across them, and that a run alone convicts nobody
/// across runs.
pub fn other_slots_convict_nobody()
    ensures { OtherSlotsConvictNobody }
{
    first_rivals();
}
