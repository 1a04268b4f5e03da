//! Laws of evidence and of its refutation. Each is a function whose contract is the law: a caller that calls
//! it knows the law.
ghost use Rattle.std.specs.Prelude.{◌≡◌, Ok};
ghost use Rattle.gen_types.specs.Spelled.{HasOneSpelling};
ghost use Rattle.gen_convict.specs.AcrossAnswers.{HeadersCollide};
ghost use Rattle.gen_convict.specs.AcrossLaws.{TestsSharing, TestsRivals, OneLeaf, SlotsApart, FoundWhereHeld, FirstContradict, OneFirstAcross, FirstOfTwoRuns};
ghost use Rattle.gen_convict.specs.EvidenceReading.{IsWhole, whole_evidence};
ghost use Rattle.gen_convict.specs.EvidenceSpelling.{HeaderAndEvidence, whole_spelling};
ghost use Rattle.gen_convict.specs.Laws.{OneStatementOfEach, OneOrderOfCommander, NowhereDeparts, OneLinkText, LinksTell, OneTextOfPlace, LinkTextsAreBytes, Refutes, AnswersAreBytes};
ghost use Rattle.gen_convict.specs.PairLaws.{FirstOfSubject, EarliestSubject, FirstCommand, OneOfEach, HasTwoTexts, OneFirstPair};
ghost use Rattle.gen_convict.specs.RingLaws.{OneTextOfLeaf};
ghost use Rattle.gen_convict.specs.FirstLaws.{TextsVerify, FirstHolds, GivenWhereHeld, OneClaim};

use gen_log::laws::one_entry_spelling;
use gen_net::laws::one_header_spelling;

/// States that a follower signs at most one statement of each order (`statement`), and statements of one order alone if
/// it is the commander (`order`). A follower's log departs nowhere (`nowhere`).
pub fn followers_logs()
    ensures statement { OneStatementOfEach }
    ensures order { OneOrderOfCommander }
    ensures nowhere { NowhereDeparts }
{}

/// States that the bytes that are hashed for a link determine the link before it and the entry (`text`). So two lists
/// with as many entries and equal links before and after them are equal, or the texts collide that are hashed for links
/// at one place of both lists, the first such place (`entries`). A list has one such text at each place (`one`), and the
/// text is a list of bytes if what it is made of is (`bytes`).
pub fn links_tell()
    ensures text { OneLinkText }
    ensures entries { LinksTell }
    ensures one { OneTextOfPlace }
    ensures bytes { LinkTextsAreBytes }
{
    one_entry_spelling();
}

/// States that a claim that holds against a general has an answer if the general kept a follower's log. The answer is a
/// text of the claim that this log doesn't have, or two texts with one hash: of a link of the claim's log and of one of this
/// log, or of the run ids of the claim's headers (`answered`). The two texts are lists of bytes if the claim and this log are
/// (`bytes`).
pub fn claims_are_refuted()
    ensures answered { Refutes }
    ensures bytes { AnswersAreBytes }
{
    headers_collide();
    links_tell();
}

/// States how first pairs are found. A list of texts has one first pair of different texts (`one`), or no two of its
/// texts differ (`found`). The pair begins with the first text of its subject (`subject`), and of all subjects' pairs
/// it is the one that begins first (`earliest`). The first pair of two orders begins with the first statement of the
/// commander alone (`command`). If no two texts differ, texts of one subject are equal (`each`).
pub fn first_pairs()
    ensures subject { FirstOfSubject }
    ensures earliest { EarliestSubject }
    ensures command { FirstCommand }
    ensures each { OneOfEach }
    ensures found { HasTwoTexts }
    ensures one { OneFirstPair }
{}

/// States that the texts in a general's list verify as the general's (`texts`), and that the first claim against a
/// general holds (`holds`). If it is decided of each log whether it departs, there is a claim if and only if the
/// exhibits hold a contradiction of the general (`given`). There is at most one claim (`one`).
pub fn first_claims()
    ensures texts { TextsVerify }
    ensures holds { FirstHolds }
    ensures given { GivenWhereHeld }
    ensures one { OneClaim }
{}

/// States that evidence under a header has one spelling, and that no spelling of evidence is the beginning of another
/// (`one`). What was written is read again (`again`).
pub fn one_evidence_spelling()
    ensures one { HasOneSpelling IsWhole whole_spelling }
    ensures again { (e : HeaderAndEvidence) → IsWhole e → whole_evidence (whole_spelling e) ≡ Ok e }
{}

/// States that two tests are exact: whether two runs use the same leaves (`sharing`), and whether two texts are rivals
/// (`rivals`). Rivals stand under one leaf (`leaf`), and runs of different slots have no leaf in common (`slots`).
pub fn rivals_are_tested()
    ensures sharing { TestsSharing }
    ensures rivals { TestsRivals }
    ensures leaf { OneLeaf }
    ensures slots { SlotsApart }
{}

/// States when rivals are found: if and only if the exhibits of two runs hold two texts that contradict each other
/// across the runs (`found`). What is found contradicts (`holds`), and it is the only first pair (`one`). Its texts are
/// of two runs, and the first text is of the earlier run (`runs`).
pub fn first_rivals()
    ensures found { FoundWhereHeld }
    ensures holds { FirstContradict }
    ensures one { OneFirstAcross }
    ensures runs { FirstOfTwoRuns }
{}

/// States that the bytes that are hashed for the run ids of two different headers collide if the run ids are equal.
pub fn headers_collide()
    ensures { HeadersCollide }
{
    one_header_spelling();
}

/// States that one ring serves several runs. If a general could have kept their logs by following, and their slots
/// ascend strictly, each leaf of the general's ring has at most one text in these logs.
pub fn one_text_of_leaf()
    ensures { OneTextOfLeaf }
{}
