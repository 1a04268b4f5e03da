//! Laws of the machine. Each is a function with an empty body whose contract is the law.
ghost use Rattle.gen_async.specs.Logs.{LogLaw, StandLaw};
ghost use Rattle.gen_async.specs.Rows.{PairRow, PairEnds, TriangleRow, TriangleTwo};
ghost use Rattle.gen_async.specs.Frames.{HeardLaw, RunLaw};
ghost use Rattle.gen_async.specs.ScenarioRun.{BeginsLogs, PutsFrames, WritesLog};
ghost use Rattle.gen_async.specs.Laws.{CountLaw, MoverLaw, ProgressLaw, QueueLaw};

/// States how far the generals get, whatever the order of acts. The next act of a general tells what it has
/// put and taken so far (`by_next`). No more frames are taken off a queue than were put on it, and no queue
/// holds more frames than its capacity (`queues`). The next act of some general moves until all generals are
/// done, if the capacity is at least 1 (`movers`). The number of acts that have moved is the sum of the
/// progress of all generals, and at most four for each edge and round (`counts`).
pub fn progress()
    ensures by_next { ProgressLaw }
    ensures queues { QueueLaw }
    ensures movers { MoverLaw }
    ensures counts { CountLaw }
{}

/// States that, in a world that the participants make, the frames that are put are the world's, whatever the
/// order of acts (`frames`). What a general has taken before its put of a round is what comes to it in the
/// rounds before (`heard`).
pub fn runs<F>()
    ensures frames { RunLaw F }
    ensures heard { HeardLaw F }
{}

/// States that the log so far begins the whole log, and is all of it if all acts have moved (`begins`), and
/// which steps stand in it (`standing`).
pub fn logs<E>()
    ensures begins { LogLaw E }
    ensures standing { StandLaw }
{}

/// States the answers to two rows of attempts, which follow from the definitions alone. One is for two
/// generals (`pair`), and none of them can act afterwards (`ends`). The other is for three generals, at a
/// capacity of 1 (`triangle`) and of 2 (`roomy`).
pub fn rows()
    ensures pair { PairRow }
    ensures ends { PairEnds }
    ensures triangle { TriangleRow }
    ensures roomy { TriangleTwo }
{}

/// States that, whatever the order of acts and the capacity, the queues hold the frames of the scenario's run
/// (`frames`). By all its steps a general writes the entries of its first log in that run (`writes`). What it
/// has written so far begins them, and is all of them once it is done (`begins`).
pub fn scenario_runs()
    ensures frames { PutsFrames }
    ensures writes { WritesLog }
    ensures begins { BeginsLogs }
{}
