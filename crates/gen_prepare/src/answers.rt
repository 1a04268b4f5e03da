//! Evidence, answered by a log of the accused.
ghost use Rattle.std.specs.Prelude.{◌≡◌, IfOk, IfErr};
ghost use Rattle.gen_log.specs.Log.{IsLog};
ghost use Rattle.gen_convict.specs.Evidence.{told_of};
ghost use Rattle.gen_convict.specs.EvidenceReading.{IsWhole};
ghost use Rattle.gen_prepare.specs.Answering.{IsAnswerFault, IsAnswered, TellsAnswer};
ghost use Rattle.gen_prepare.specs.declared.answers.AnswerFault.TheVariants.{Memory};

use crate::answer_lines::answer_line;
use gen_convict::{Evidence, EvidenceFault, check_evidence, is_own_log, read_evidence, refute};
use gen_log::{Log, LogFault, read_log};
use gen_net::Header;
use gen_types::ReadError;
use std::alloc::{AllocError, Global};
use thiserror::Error;

/// What is written where there is no answer.
const NONE: &[u8] = b"no answer\n";

/// The answer to evidence.
#[derive(Debug, Drop)]
pub struct AnswerText {
    /// The text.
    pub text: Vec<u8>,
    /// Whether the text says that there is no answer.
    pub negative: bool,
}

/// Why evidence and a log are not looked at.
#[derive(Clone, Copy, Debug, PartialEq, Eq, Error)]
pub enum AnswerFault {
    /// The one input is no evidence.
    #[error("fault {0}")]
    Evidence(EvidenceFault),
    /// The other is no log of its run.
    #[error("fault {0}")]
    Log(LogFault),
    /// Memory was refused.
    #[error("memory")]
    Memory,
}

impl From<AllocError> for AnswerFault {
    ghost from_gives = { λ _ e. e ≡ Memory };

    fn from(_e: AllocError) -> AnswerFault {
        AnswerFault::Memory
    }
}

impl From<ReadError<EvidenceFault>> for AnswerFault {
    ghost use Rattle.gen_prepare.specs.Failing.{evidence_failure};

    ghost from_gives = { λ e fault. fault ≡ evidence_failure e };

    fn from(e: ReadError<EvidenceFault>) -> AnswerFault {
        match e {
            ReadError::Memory => AnswerFault::Memory,
            ReadError::Fault(fault) => AnswerFault::Evidence(fault),
        }
    }
}

impl From<ReadError<LogFault>> for AnswerFault {
    ghost use Rattle.gen_prepare.specs.Failing.{log_failure};

    ghost from_gives = { λ e fault. fault ≡ log_failure e };

    fn from(e: ReadError<LogFault>) -> AnswerFault {
        match e {
            ReadError::Memory => AnswerFault::Memory,
            ReadError::Fault(fault) => AnswerFault::Log(fault),
        }
    }
}

/// Returns what answers evidence by a log of the accused, or that there is no answer, which says no.
fn answer_to(
    alloc: Global,
    header: &Header,
    evidence: &Evidence,
    own: &Log,
) -> Result<AnswerText, AllocError>
    requires whole { IsWhole (record { header = header.now; evidence = told_of evidence.now }) }
    requires log { IsLog header.now own.now }
    ensures { IfOk result (λ o. TellsAnswer
        (record { header = header.now; evidence = told_of evidence.now }) own.now
        o.text.items o.negative) }
{
    let holds = check_evidence(alloc, header, evidence)?;
    let follows = is_own_log(header, evidence.accused, own);
    if !holds || !follows {
        return Ok(AnswerText {
            text: NONE.to_vec(alloc)?,
            negative: true,
        });
    }
    let answer = refute(alloc, header, evidence, own)?;
    Ok(AnswerText {
        text: answer_line(alloc, &answer)?,
        negative: false,
    })
}

/// Returns what answers the evidence that the one input spells by the log that the other does: the text that the
/// accused didn't log, or two strings with one hash. It says no where there is no answer.
///
/// # Errors
///
/// `Evidence` with the first fault of an input that spells no evidence, `Log` with that of one that spells no log of its
/// run, and `Memory` where memory is refused.
pub fn answer(alloc: Global, evidence: &[u8], log: &[u8]) -> Result<AnswerText, AnswerFault>
    ensures answer { IfOk result (λ o. IsAnswered evidence.now log.now o.text.items o.negative) }
    ensures fault { IfErr result (IsAnswerFault evidence.now log.now) }
{
    let (header, evidence) = read_evidence(alloc, evidence)?;
    let own = read_log(alloc, &header, log)?;
    Ok(answer_to(alloc, &header, &evidence, &own)?)
}
