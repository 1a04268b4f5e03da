//! Laws of runs. Each is a function with an empty body whose contract is the law: a caller that calls it
//! knows the law.
ghost use Rattle.gen_net.specs.Network.{IsNetwork};
ghost use Rattle.gen_scenario.specs.AnyChoice.{AnyChoice, EachIsChoice};
ghost use Rattle.gen_scenario.specs.Counted.{CountsThese};
ghost use Rattle.gen_scenario.specs.Deciding.{DecisionsHold, PlainDecisions, OneOutcome};
ghost use Rattle.gen_scenario.specs.Derivables.{ProlongedByFaulty, SignedByFaulty};
ghost use Rattle.gen_scenario.specs.HeardLaws.{CountedAreChains, HeardInRound, HeardIsKnown};
ghost use Rattle.gen_scenario.specs.LogsVerify.{AllShort, AllVerify};
ghost use Rattle.gen_scenario.specs.RoundsKept.{FrameKept, SendEntriesKept, SignEntriesKept, SignsKept};
ghost use Rattle.gen_scenario.specs.SignedLaw.{NoRawIsSigned, TheoremHoldsOfScenarios};
ghost use Rattle.gen_scenario.specs.Steps.{MessagesCount, OneRoundMore, FrameAfter, OneSignerMore, BegunByCommander};
ghost use Rattle.gen_scenario.specs.PartLaws.{KeysAreEnough, KnownTreesAreEnough, OwnSeedIsEnough};
ghost use Rattle.gen_scenario.specs.Theorem.{Agreement, Case, DecideAlike, EachDecides, ObeyCommander, Premises, Validity};
ghost use Rattle.gen_scenario.specs.TwoOrders.{BothAccepted, three, two_orders_case};
ghost use Rattle.gen_scenario.specs.World.{OneWorld};
ghost use Rattle.gen_scenario.specs.WorldFollows.{LieutenantsFollow, WorldIsSigned, WorldMeetsPremises};
ghost use Rattle.gen_scenario.specs.WorldLogs.{FollowersKeep};
ghost use Rattle.gen_scenario.specs.WorldLaws.{CommanderObeys, EachFollows, LieutenantsRelay, MessagesAreRun, PlainWorld};

/// States that a plain scenario has one run: two runs of it have the same messages (`one`). In that run every
/// general follows the algorithm SM of the paper of 1982. Each lieutenant follows it with some pick
/// (`lieutenants`). The run is one in which no general is faulty and the commander has the scenario's order
/// (`signed`). It meets what Theorem 4 asks for if no two generals are more than d edges apart (`premises`).
pub fn world_follows()
    ensures one { OneWorld }
    ensures lieutenants { LieutenantsFollow }
    ensures signed { WorldIsSigned }
    ensures premises { WorldMeetsPremises }
{}

/// States Theorem 4 of the paper of 1982 (section 5). In a signed run for a set of at most m faulty generals,
/// where any two generals of the rest are joined inside the rest by at most d edges:
///
/// - `agreement`: any two lieutenants of the rest accept the same orders;
/// - `validity`: if the commander is of the rest, they accept the commander's order and no other;
/// - `decide_alike`: any two lieutenants of the rest decide the same order (IC1);
/// - `obey_commander`: if the commander is of the rest, they decide the commander's order (IC2);
/// - `any_choice`: they also choose alike, and obey a commander of the rest, by any choice from their sets that
///   takes the order from a set of one order, and RETREAT from the empty set.
///
/// Besides, every lieutenant has a decision in every run (`each_decides`), and every choice that a network
/// can name is such a choice (`each_is_choice`).
pub fn theorem_four()
    ensures agreement { (here : Case) → Premises here → Agreement here }
    ensures validity { (here : Case) → Premises here → Validity here }
    ensures each_decides { EachDecides }
    ensures decide_alike { (here : Case) → Premises here → DecideAlike here }
    ensures obey_commander { (here : Case) → Premises here → ObeyCommander here }
    ensures any_choice { (here : Case) → Premises here → AnyChoice here }
    ensures each_is_choice { EachIsChoice }
{}

/// States what faulty generals can send without forging a signature of the rest. They can send messages that
/// only they have signed (`signed_by_faulty`). They can also prolong a message that the rest sent to a faulty
/// general in an earlier round (`prolonged_by_faulty`): they keep a beginning of its path, and only faulty
/// generals sign behind that.
pub fn derivables()
    ensures signed_by_faulty { SignedByFaulty }
    ensures prolonged_by_faulty { ProlongedByFaulty }
{}

/// States that there is a run with a traitor of which Theorem 4 speaks. There are three generals, all
/// neighbours (`network`), and the faulty commander gives order 0 to one lieutenant and order 1 to the other.
/// The run meets what the theorem asks for (`premises`), and each lieutenant accepts both orders
/// (`both_accepted`).
pub fn two_orders()
    ensures network { IsNetwork three }
    ensures premises { Premises two_orders_case }
    ensures both_accepted { BothAccepted }
{}

/// States that the messages of a scenario with signatures are a run of its network (`run`). A commander
/// without a script follows the algorithm with the scenario's order (`commander`). Each lieutenant without a
/// script relays what it adds, with the least sender's path (`lieutenants`). So each general without a script
/// follows the algorithm (`follows`). If nobody has a script, it is the run of the plain scenario (`plain`).
pub fn world_is_run()
    ensures run { MessagesAreRun }
    ensures commander { CommanderObeys }
    ensures lieutenants { LieutenantsRelay }
    ensures follows { EachFollows }
    ensures plain { PlainWorld }
{}

/// States that what each general without a script decides is its decision in the run of the scenario
/// (`hold`). If nobody has a script, these are the decisions of the plain scenario (`plain`), which has one
/// list of decisions (`one`).
pub fn decisions_are_known()
    ensures hold { DecisionsHold }
    ensures plain { PlainDecisions }
    ensures one { OneOutcome }
{}

/// States how loops follow the definitions. The list that counting gives for a frame has exactly the chains
/// that count, at most one for each order (`chains`). The messages of the run are those that count in the
/// frames of their rounds (`count`). One more round adds to what is heard (`round`) and has its frames
/// (`frame`). A path of signers grows by one signer (`signer`), and a chain begins with the commander
/// (`begin`).
pub fn steps_are_known()
    ensures chains { CountsThese }
    ensures count { MessagesCount }
    ensures round { OneRoundMore }
    ensures frame { FrameAfter }
    ensures signer { OneSignerMore }
    ensures begin { BegunByCommander }
{}

/// States that if no script has a raw line, the messages of a scenario are a run for the generals that have
/// scripts: no signature of the rest is forged, whatever is known of SHA-256.
pub fn no_signature_is_forged()
    ensures { NoRawIsSigned }
{}

/// States Theorem 4 of the paper of 1982 (section 5) for scenarios. If there are at most m scripts, none has
/// a raw line, and any two generals of the rest are joined inside the rest by at most d edges, then the rest
/// decide one order. It is the scenario's order if the commander has no script.
pub fn theorem_holds_of_scenarios()
    ensures { TheoremHoldsOfScenarios }
{}

/// States what is known of chains that count, and so of what a general heard. Such a chain is signed with
/// trees of the run's height, and may count (`counted`). In a scenario it came from a neighbour that is its
/// last signer, and the general that heard it has not signed it (`known`). What was heard in a round has as
/// many signers as the round's number (`rounds`).
///
/// What arrives in a round has no effect on what is signed in it (`signs`), on its frames (`frame`), and on
/// its SIGNs and SENDs (`written`, `sent`). So these do not depend on the order in which a general hears and
/// sends within a round. All but `signs` need the lines of the script to be lawful.
pub fn heard_is_known()
    ensures counted { CountedAreChains }
    ensures known { HeardIsKnown }
    ensures rounds { HeardInRound }
    ensures signs { SignsKept }
    ensures frame { FrameKept }
    ensures written { SignEntriesKept }
    ensures sent { SendEntriesKept }
{}

/// States that a general without a script has one log, whose entries are exactly those that a follower keeps
/// of the run (`followers`). Each log of each general, including the logs of traitors and their second logs,
/// is a log of this run whose signatures and head verify (`verify`), and has fewer than 2 to the power of 32
/// bytes (`short`).
pub fn logs_are_known()
    ensures followers { FollowersKeep }
    ensures verify { AllVerify }
    ensures short { AllShort }
{}

/// States that what a general knows of its own is enough to act as the scenario says. It needs keys that give
/// its own signatures and, if it has a script, those of all generals with scripts; then it acts so whatever
/// it heard (`enough`). A general without a script has such keys by its own seed (`follower`), a general with
/// a script by the trees that it knows (`traitor`).
pub fn known_is_enough()
    ensures enough { KeysAreEnough }
    ensures follower { OwnSeedIsEnough }
    ensures traitor { KnownTreesAreEnough }
{}
