//! Laws about what one general does. Each is a function with an empty body whose contract is the law: a
//! caller that calls it knows the law.
ghost use Rattle.gen_general.specs.ParticipantLaws.{StartsAsHe, BeginsAsHe, HearsAsHe, SendsFrames, HearsFrames, DecidesAsHe};
ghost use Rattle.gen_general.specs.Planned.{PlansFrames, PlansSends, PlansSigns};
ghost use Rattle.gen_general.specs.Spending.{FollowersSignOnce, SignsTakeLeaves};

/// States what `Planned` says about a script in a round. The bytes of what is planned for a neighbour make
/// the frame to that neighbour (`frames`). The planned chains are those that the general signs (`signs`).
/// Those for a neighbour are the chains that the general sends that neighbour (`sends`).
pub fn plans_are_frames()
    ensures frames { PlansFrames }
    ensures signs { PlansSigns }
    ensures sends { PlansSends }
{}

/// States that a general that is driven as a scenario says has the scenario's state, whatever code drives it.
/// With its own knowledge of the scenario and its own ring it is the scenario's general (`start`). It remains
/// so when it begins a round (`begin`) and when it hears a frame (`hear`).
///
/// In a round before which it heard what the scenario says, it sends the frames of the run (`frames`), and
/// hears of a neighbour's frame what the scenario says (`heard`). After the last round it decides what the
/// scenario says (`decide`).
pub fn participants_are_generals()
    ensures start { StartsAsHe }
    ensures begin { BeginsAsHe }
    ensures hear { HearsAsHe }
    ensures frames { SendsFrames }
    ensures heard { HearsFrames }
    ensures decide { DecidesAsHe }
{}

/// States which leaves of its ring a general without a script takes. In each round they are those of the
/// SIGNs that it writes in that round (`round`). In its log of a scenario's run each leaf signs at most one
/// text (`once`).
pub fn texts_take_leaves()
    ensures round { SignsTakeLeaves }
    ensures once { FollowersSignOnce }
{}
