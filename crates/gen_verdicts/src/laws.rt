//! A law of texts: a function that does nothing and whose contract is the law. A caller that calls it knows the law.
ghost use Rattle.gen_verdicts.specs.CampaignVerdictText.{OneBundleAsPrinted};

/// States that the text of the verdict on a bundle that stands alone is that of its judgement, as `print_verdict` of
/// `gen_report` gives it.
pub fn one_bundle_is_as_printed()
    ensures { OneBundleAsPrinted }
{}
