//! How a job ends.
ghost use Rattle.std.specs.Prelude.{◌≡◌};
ghost use Rattle.gen_ends.specs.Ends.{fault_in, fault_status, status_of};
ghost use Rattle.gen_ends.specs.Failing.{header_text_failure};
ghost use Rattle.gen_ends.specs.declared.ends.JobFault.TheVariants.{Memory};

use gen_audit::{AuditFault, BundleFault};
use gen_campaign::CampaignFault;
use gen_convict::EvidenceFault;
use gen_log::LogFault;
use gen_prepare::{AnswerFault, HeaderTextFault, SeedFault};
use gen_receipt::ReceiptFault;
use gen_text::ScenarioFault;
use gen_threads::RunFault;
use gen_types::ReadError;
use std::alloc::AllocError;
use thiserror::Error;

/// Why a job failed. Its text is the line that the program then writes to standard error.
#[derive(Clone, Copy, Debug, PartialEq, Eq, Error)]
pub enum JobFault {
    /// The input is no scenario.
    #[error("{0}")]
    Scenario(ScenarioFault),
    /// The input is no campaign, and no bundle on its own.
    #[error("fault {0}")]
    Campaign(CampaignFault),
    /// The input is no evidence.
    #[error("fault {0}")]
    Evidence(EvidenceFault),
    /// The input is no receipts of a run.
    #[error("fault {0}")]
    Receipt(ReceiptFault),
    /// The input is no log of the run of the evidence.
    #[error("fault {0}")]
    Log(LogFault),
    /// The input is no seed.
    #[error("fault {0}")]
    Seed(SeedFault),
    /// The input is the text of a header whose generals a and b, a before b, have the same root. No lesser pair has.
    #[error("fault G2 generals {a} {b}")]
    EqualRoots {
        /// The number of the first general, 0 to 15.
        a: u8,
        /// The number of the second general, 0 to 15.
        b: u8,
    },
    /// The input is of another run than the one that is asked for.
    #[error("fault R1")]
    OtherRun,
    /// Memory was refused.
    #[error("memory")]
    Memory,
    /// A thread could not be started.
    #[error("thread")]
    Thread,
    /// The file of the input could not be opened. No engine ends with it, since an engine is given a reader.
    #[error("open failed")]
    Open,
    /// The input could not be read, or is too long.
    #[error("read failed")]
    Read,
    /// The output could not be written.
    #[error("write failed")]
    Write,
}

impl JobFault {
    /// Returns the program's exit status for this fault: 3 for one of the input, 4 for memory or a thread, and 5 for an
    /// open, a read or a write.
    pub fn status(&self) -> u8
        ensures { result ≡ fault_status self.now }
    {
        match self {
            JobFault::Scenario(_)
            | JobFault::Campaign(_)
            | JobFault::Evidence(_)
            | JobFault::Receipt(_)
            | JobFault::Log(_)
            | JobFault::Seed(_)
            | JobFault::EqualRoots { .. }
            | JobFault::OtherRun => 3,
            JobFault::Memory | JobFault::Thread => 4,
            JobFault::Open | JobFault::Read | JobFault::Write => 5,
        }
    }
}

impl From<AllocError> for JobFault {
    ghost from_gives = { λ _ e. e ≡ Memory };

    fn from(_e: AllocError) -> JobFault {
        JobFault::Memory
    }
}

impl From<RunFault> for JobFault {
    ghost use Rattle.gen_ends.specs.Failing.{run_failure};

    ghost from_gives = { λ e fault. fault ≡ run_failure e };

    fn from(e: RunFault) -> JobFault {
        match e {
            RunFault::Memory => JobFault::Memory,
            RunFault::Thread | RunFault::Gone => JobFault::Thread,
        }
    }
}

impl From<AuditFault> for JobFault {
    ghost use Rattle.gen_ends.specs.Failing.{audit_failure};

    ghost from_gives = { λ e fault. fault ≡ audit_failure e };

    fn from(e: AuditFault) -> JobFault {
        match e {
            AuditFault::Memory => JobFault::Memory,
            AuditFault::Thread => JobFault::Thread,
        }
    }
}

impl From<ReadError<ScenarioFault>> for JobFault {
    ghost use Rattle.gen_ends.specs.Failing.{scenario_failure};

    ghost from_gives = { λ e fault. fault ≡ scenario_failure e };

    fn from(e: ReadError<ScenarioFault>) -> JobFault {
        match e {
            ReadError::Memory => JobFault::Memory,
            ReadError::Fault(fault) => JobFault::Scenario(fault),
        }
    }
}

impl From<ReadError<CampaignFault>> for JobFault {
    ghost use Rattle.gen_ends.specs.Failing.{campaign_failure};

    ghost from_gives = { λ e fault. fault ≡ campaign_failure e };

    fn from(e: ReadError<CampaignFault>) -> JobFault {
        match e {
            ReadError::Memory => JobFault::Memory,
            ReadError::Fault(fault) => JobFault::Campaign(fault),
        }
    }
}

impl From<ReadError<EvidenceFault>> for JobFault {
    ghost use Rattle.gen_ends.specs.Failing.{evidence_failure};

    ghost from_gives = { λ e fault. fault ≡ evidence_failure e };

    fn from(e: ReadError<EvidenceFault>) -> JobFault {
        match e {
            ReadError::Memory => JobFault::Memory,
            ReadError::Fault(fault) => JobFault::Evidence(fault),
        }
    }
}

impl From<ReadError<ReceiptFault>> for JobFault {
    ghost use Rattle.gen_ends.specs.Failing.{receipt_failure};

    ghost from_gives = { λ e fault. fault ≡ receipt_failure e };

    fn from(e: ReadError<ReceiptFault>) -> JobFault {
        match e {
            ReadError::Memory => JobFault::Memory,
            ReadError::Fault(fault) => JobFault::Receipt(fault),
        }
    }
}

impl From<ReadError<SeedFault>> for JobFault {
    ghost use Rattle.gen_ends.specs.Failing.{seed_failure};

    ghost from_gives = { λ e fault. fault ≡ seed_failure e };

    fn from(e: ReadError<SeedFault>) -> JobFault {
        match e {
            ReadError::Memory => JobFault::Memory,
            ReadError::Fault(fault) => JobFault::Seed(fault),
        }
    }
}

/// Returns the fault of a job whose input is the text of a header with this fault.
fn of_header_text(fault: HeaderTextFault) -> JobFault
    ensures { result ≡ header_text_failure fault }
{
    match fault {
        HeaderTextFault::Text(inner) => JobFault::Scenario(inner),
        HeaderTextFault::EqualRoots { a, b } => JobFault::EqualRoots {
            a: a.get(),
            b: b.get(),
        },
    }
}

impl From<ReadError<HeaderTextFault>> for JobFault {
    ghost use Rattle.gen_ends.specs.Failing.{header_failure};

    ghost from_gives = { λ e fault. fault ≡ header_failure e };

    fn from(e: ReadError<HeaderTextFault>) -> JobFault {
        match e {
            ReadError::Memory => JobFault::Memory,
            ReadError::Fault(fault) => of_header_text(fault),
        }
    }
}

impl From<ReadError<BundleFault>> for JobFault {
    ghost use Rattle.gen_ends.specs.Failing.{bundle_failure};

    ghost from_gives = { λ e fault. fault ≡ bundle_failure e };

    fn from(e: ReadError<BundleFault>) -> JobFault {
        match e {
            ReadError::Memory => JobFault::Memory,
            ReadError::Fault(fault) => JobFault::Campaign(CampaignFault::Alone(fault)),
        }
    }
}

impl From<AnswerFault> for JobFault {
    ghost use Rattle.gen_ends.specs.Failing.{answer_failure};

    ghost from_gives = { λ e fault. fault ≡ answer_failure e };

    fn from(e: AnswerFault) -> JobFault {
        match e {
            AnswerFault::Memory => JobFault::Memory,
            AnswerFault::Evidence(fault) => JobFault::Evidence(fault),
            AnswerFault::Log(fault) => JobFault::Log(fault),
        }
    }
}

/// The output of a job.
#[derive(Debug, Drop)]
pub struct Output {
    /// The text.
    pub text: Vec<u8>,
    /// Whether the text says no.
    pub negative: bool,
}

/// How a job ended.
#[derive(Clone, Copy, Debug, PartialEq, Eq)]
pub enum JobEnd {
    /// The output was written, and it doesn't say no.
    Done,
    /// The output was written, and it says no.
    Negative,
    /// The job failed.
    Failed(JobFault),
}

impl JobEnd {
    /// Returns the program's exit status. It is 0 if the job is done, 1 if its output says no, 3 for a fault of the
    /// input, 4 for memory or a thread, and 5 for an open, a read or a write.
    pub fn status(self) -> u8
        ensures { result ≡ status_of self }
    {
        match self {
            JobEnd::Done => 0,
            JobEnd::Negative => 1,
            JobEnd::Failed(fault) => fault.status(),
        }
    }

    /// Returns why the job failed, whose text is the one line for standard error; None if it didn't fail.
    pub fn fault(self) -> Option<JobFault>
        ensures { result ≡ fault_in self }
    {
        match self {
            JobEnd::Done | JobEnd::Negative => None,
            JobEnd::Failed(fault) => Some(fault),
        }
    }
}
