//! Evidence as JSON.
ghost use Rattle.std.specs.Prelude.{◌≡◌, ◌<◌, IfOk};
ghost use Rattle.serde_json.specs.View.{view};
ghost use Rattle.gen_convict.specs.Evidence.{told_of};
ghost use Rattle.gen_json.specs.EvidenceData.{evidence_data};
ghost use Rattle.gen_json.specs.Line.{ReadsAs, json_line};

use crate::claims::claim_value;
use crate::convictions::claim_name;
use crate::lines::value_line;
use crate::numbers::{digits_value, network_value};
use crate::objects::{JSON_VERSION, ObjectBuilder};
use gen_convict::Evidence;
use gen_net::Header;
use serde_json::Value;
use std::alloc::{AllocError, Global};

/// Returns evidence under a header, and whether it holds. The accused is a general of the network.
///
/// # Errors
///
/// `AllocError` if memory is refused.
pub fn evidence_value(
    alloc: Global,
    header: &Header,
    evidence: &Evidence,
    holds: bool,
) -> Result<Value, AllocError>
    requires { evidence.now.accused < header.now.network.generals }
    ensures { IfOk result (λ v. view v ≡ evidence_data header.now (told_of evidence.now) holds) }
{
    let mut object = ObjectBuilder::new(alloc);
    object.put("accused", Value::from(evidence.accused.get()));
    object.put_made("claim", claim_value(alloc, &evidence.claim));
    object.put_text("format", "evidence");
    object.put("holds", Value::from(holds));
    object.put_text("kind", claim_name(&evidence.claim));
    object.put_made("network", network_value(alloc, header.net()));
    object.put_made("root", digits_value(alloc, header.root(evidence.accused)));
    object.put_made("run", digits_value(alloc, header.run_id()));
    object.put("version", Value::from(JSON_VERSION));
    object.finish()
}

/// Returns the line of JSON of evidence under a header, and of whether it holds: the accused with the root of its keys,
/// the kind of the claim and what it says, the run id and the numbers of the network.
///
/// # Errors
///
/// `AllocError` if memory is refused.
pub fn print_evidence_json(
    alloc: Global,
    header: &Header,
    evidence: &Evidence,
    holds: bool,
) -> Result<Vec<u8>, AllocError>
    // The accused is a general of the network, as in all evidence that `read_evidence` reads.
    requires { evidence.now.accused < header.now.network.generals }
    // It is the line of this value, byte for byte.
    ensures text { IfOk result (λ line. line.items
        ≡ json_line (evidence_data header.now (told_of evidence.now) holds)) }
    // A reader of JSON finds this value in it.
    ensures reads { IfOk result (λ line. ReadsAs line.items
        (evidence_data header.now (told_of evidence.now) holds)) }
{
    let value = evidence_value(alloc, header, evidence, holds)?;
    value_line(alloc, &value)
}
