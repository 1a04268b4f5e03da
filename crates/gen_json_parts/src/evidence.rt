//! Evidence as lines of JSON.
ghost use Rattle.std.specs.Prelude.{◌≡◌, ◌<◌, ◌++◌, OnOk};
ghost use Rattle.gen_convict.specs.Evidence.{told_of};
ghost use Rattle.gen_convict.specs.Told.{told};
ghost use Rattle.gen_file.specs.Parts.{HasRoom};
ghost use Rattle.gen_json_parts.specs.EvidenceLines.{claim_lines, evidence_lines};

use crate::bundles::push_end;
use crate::headers::push_header;
use crate::logs::push_log;
use gen_convict::{Claim, Evidence};
use gen_file::claim_log_at;
use gen_json::{evidence_value, push_value};
use gen_net::Header;
use gen_types::GeneralNo;
use std::alloc::{AllocError, Global};

/// Appends the lines of the log that a claim shows, or of the header of the other run; nothing of another claim.
fn push_claim(
    alloc: Global,
    out: &mut Vec<u8>,
    header: &Header,
    accused: GeneralNo,
    claim: &Claim,
) -> Result<(), AllocError>
    requires { HasRoom header.now (told claim.now) }
    ensures { OnOk result (out.new.items
        ≡ out.old.items ++ claim_lines header.now accused (told claim.now)) }
{
    match claim {
        Claim::Texts { .. } | Claim::Orders { .. } => Ok(()),
        Claim::Missing { log, .. } => {
            let at = claim_log_at(alloc, header, log.as_slice())?;
            push_log(alloc, out, header, accused, at, log.as_slice())
        }
        Claim::Departing { log, .. } => {
            let at = claim_log_at(alloc, header, log.as_slice())?;
            push_log(alloc, out, header, accused, at, log.as_slice())
        }
        Claim::Across { second, .. } => push_header(alloc, out, "header", &second.header),
    }
}

/// Appends the lines of evidence that holds or fails.
///
/// # Errors
///
/// `AllocError` if memory is refused; then what stands in `out` isn't said.
pub fn push_evidence(
    alloc: Global,
    out: &mut Vec<u8>,
    holds: bool,
    header: &Header,
    evidence: &Evidence,
) -> Result<(), AllocError>
    // The accused is a general of the network, and the log of the claim ends below 2^64 bytes, as in all evidence that
    // `read_evidence` reads.
    requires accused { evidence.now.accused < header.now.network.generals }
    requires room { HasRoom header.now (told evidence.now.claim) }
    ensures { OnOk result (out.new.items ≡ out.old.items
        ++ evidence_lines holds (record { header = header.now; evidence = told_of evidence.now })) }
{
    push_header(alloc, out, "evidence", header)?;
    push_claim(alloc, out, header, evidence.accused, &evidence.claim)?;
    let value = evidence_value(alloc, header, evidence, holds)?;
    push_value(alloc, out, &value)?;
    push_end(alloc, out, "shown end")
}
