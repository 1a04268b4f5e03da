//! Laws of jobs. Each is a function with an empty body whose contract is the law: a caller that calls it
//! knows the law.
ghost use Rattle.gen_jobs.specs.Accepted.{RunsAreAccepted, RunsAreAcceptedBy, RunsAreJudged, RunsAreJudgedBy, RunsAreRead};
ghost use Rattle.gen_jobs.specs.AcceptedCampaigns.{CampaignsAreAccepted, CampaignsAreAcceptedBy, CampaignsAreRead};

/// What the job `run` writes is read as the bundle of its run (`read`). What the job `audit` makes of it does not say
/// no if the scenario is sound (`accepted`). A scenario is sound if no script has a raw line, some general has no
/// script, and any two generals without one are joined inside these by at most d edges. The same holds in any form and for
/// any runs that are asked for (`accepted_by`). It holds strictly too, if at most m generals have scripts and no two have
/// the same root.
pub fn runs_are_accepted()
    ensures read { RunsAreRead }
    ensures accepted { RunsAreAccepted }
    ensures accepted_by { RunsAreAcceptedBy }
{}

/// What the job `audit` makes of what the job `run` writes is what the job `judge` makes of the same scenario (`judged`).
/// The same holds in any form, for any runs that are asked for, and strictly (`judged_by`).
pub fn runs_are_judged()
    ensures judged { RunsAreJudged }
    ensures judged_by { RunsAreJudgedBy }
{}

/// What the job `campaign` writes is read as the bundles of its runs (`read`). What the job `audit` makes of it does
/// not say no if each of its scenarios is sound (`accepted`). A scenario is sound if no script has a raw line, some
/// general has no script, and any two generals without one are joined inside these by at most d edges. The same holds in
/// any form and for any runs that are asked for (`accepted_by`). It holds strictly too, if at most m generals of each
/// scenario have scripts and no two have the same root.
pub fn campaigns_are_accepted()
    ensures read { CampaignsAreRead }
    ensures accepted { CampaignsAreAccepted }
    ensures accepted_by { CampaignsAreAcceptedBy }
{}
