//! Laws of logs and reports. Each is a function with an empty body whose contract is the law: a caller that
//! calls it knows the law.
ghost use Rattle.gen_local.specs.FollowingLaws.{BegunByStep, BegunByNone, BegunByOneMore, DepartsAtFirst, WholeLogs};
ghost use Rattle.gen_local.specs.ReportLaws.{OneReport, FindsNothingInGoodLogs};
ghost use Rattle.gen_local.specs.Walking.Laws.{JudgedExactly, BroughtOn};

/// States how entries begin a log of a general: if and only if each may follow those before it (`step`). The empty list
/// begins a log (`none`), and one more entry goes on if and only if it may follow (`more`). A list departs at the first
/// entry that may not follow those before it (`departs`). It is a whole log if and only if it begins one and ends with
/// DECIDE (`whole`).
pub fn begun_by_step()
    ensures step { BegunByStep }
    ensures none { BegunByNone }
    ensures more { BegunByOneMore }
    ensures departs { DepartsAtFirst }
    ensures whole { WholeLogs }
{}

/// States that the progress after some entries determines exactly which entry may follow (`exactly`), and that such an
/// entry updates the progress (`on`).
pub fn judged_by_state()
    ensures exactly { JudgedExactly }
    ensures on { BroughtOn }
{}

/// States that reports are exact. An exhibit has one report under a header (`one`). Nothing is found against an exhibit
/// if and only if it is a log that verifies for its general and that the general could keep (`nothing`).
pub fn reports_are_exact()
    ensures one { OneReport }
    ensures nothing { FindsNothingInGoodLogs }
{}
