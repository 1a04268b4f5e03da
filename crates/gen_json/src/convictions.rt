//! Convictions as JSON.
ghost use Rattle.std.specs.Prelude.{◌≡◌, IfOk, map};
ghost use Rattle.serde_json.specs.View.{view};
ghost use Rattle.gen_convict.specs.Evidence.{told_of};
ghost use Rattle.gen_convict.specs.Told.{told};
ghost use Rattle.gen_json.specs.ConvictionData.{claim_name, conviction_data};
ghost use Rattle.gen_json.specs.JsonData.{list_of};

use crate::objects::ObjectBuilder;
use gen_convict::{Claim, Evidence};
use serde_json::Value;
use std::alloc::{AllocError, Global};

/// Returns the name of a claim: K1 is two texts under one leaf, be they of one run or of two.
pub(crate) fn claim_name(claim: &Claim) -> &'static str
    ensures { result.now ≡ claim_name (told claim.now) }
{
    match claim {
        Claim::Texts { .. } | Claim::Across { .. } => "K1",
        Claim::Orders { .. } => "K2",
        Claim::Missing { .. } => "K3",
        Claim::Departing { .. } => "K4",
    }
}

/// Returns which general is convicted, and by which kind of evidence.
///
/// # Errors
///
/// `AllocError` if memory is refused.
pub fn conviction_value(alloc: Global, evidence: &Evidence) -> Result<Value, AllocError>
    ensures { IfOk result (λ v. view v ≡ conviction_data (told_of evidence.now)) }
{
    let mut object = ObjectBuilder::new(alloc);
    object.put("general", Value::from(evidence.accused.get()));
    object.put_text("id", claim_name(&evidence.claim));
    object.finish()
}

/// Returns the list of convictions.
///
/// # Errors
///
/// `AllocError` if memory is refused.
pub fn convictions_value(alloc: Global, convictions: &[Evidence]) -> Result<Value, AllocError>
    ensures { IfOk result (λ v. view v ≡ list_of conviction_data (map told_of convictions.now)) }
{
    let mut list = Vec::new(alloc);
    for evidence in convictions {
        let value = conviction_value(alloc, evidence)?;
        serde_json::push(&mut list, value)?;
    }
    Ok(Value::Array(list))
}
