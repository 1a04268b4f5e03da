//! Laws of runs of values. Each is a function with an empty body whose contract is the law: a caller that calls it
//! knows the law.
ghost use Rattle.gen_named.specs.Explained.{FitIsExplained};
ghost use Rattle.gen_named.specs.Matched.{DeriveRenamed, MatchRenamed};
ghost use Rattle.gen_named.specs.Named.{EachCanName};
ghost use Rattle.gen_named.specs.OtherNames.{NamesDiffer, other_names_case, three};
ghost use Rattle.gen_named.specs.Signing.{FollowersSignTwo};
ghost use Rattle.gen_named.specs.Theorem.{Case, DecideAlike, ObeyCommander, Premises};
ghost use Rattle.gen_net.specs.Network.{IsNetwork};

/// States agreement and validity for values of any number (IC1 and IC2 of the paper of 1982, for a network that need
/// not be complete). There are at most m faulty generals, and m + d rounds. Any two of the rest are joined inside the
/// rest by at most d edges, each of the rest follows under lawful names of its own, and no signature of the rest is
/// forged. The choice is the only member of a set, else RETREAT. Then:
///
/// - `alike`: any two lieutenants of the rest decide the same value, or both RETREAT;
/// - `obey`: if the commander is of the rest, they decide the commander's value.
pub fn named_values_agree()
    ensures alike { (here : Case) → Premises here → DecideAlike here }
    ensures obey { (here : Case) → Premises here → ObeyCommander here }
{}

/// States that one run of values explains the logs of the rest if and only if they fit. Each log is written under its
/// general's own names. In the run each of the rest follows under these names, keeps exactly this log, and is not
/// forged. Logs fit by what is looked at one by one: each log alone, each edge of the rest, and each RECV from the
/// faulty.
pub fn named_logs_fit()
    ensures { FitIsExplained }
{}

/// States that the tests of versions 1 and 2, which compare orders, compare values in logs that are renamed:
///
/// - `edges`: logs match by value if and only if no message of the logs renamed on edges is one-sided;
/// - `derived`: what a general received of a value derives if and only if it does so in the logs by the general's own
///   names.
pub fn renamed_logs_match()
    ensures edges { MatchRenamed }
    ensures derived { DeriveRenamed }
{}

/// States that in every run of values each general has lawful names for what comes: it gives names to at most two
/// values, and leaves out a value only in a round by which both names came. So no run has a dead end.
pub fn values_can_be_named()
    ensures { EachCanName }
{}

/// States what a general that follows under its names signs, by the log that it keeps. Each of its statements is of an
/// order that stands for a value, and all of one order have one path. Those of two orders are of two values. The
/// commander signs one order alone.
pub fn followers_sign_two()
    ensures { FollowersSignTwo }
{}

/// States that there is a run of values with a traitor, of which agreement speaks, and in which no value has a name at
/// both lieutenants. There are three generals, all neighbours (`network`), and the faulty commander gives each
/// lieutenant two values that the other is not given. The run meets what agreement asks for (`premises`). Each
/// lieutenant takes two orders, their names have no value in common, and both decide RETREAT (`names_differ`).
pub fn names_may_differ()
    ensures network { IsNetwork three }
    ensures premises { Premises other_names_case }
    ensures names_differ { NamesDiffer }
{}
