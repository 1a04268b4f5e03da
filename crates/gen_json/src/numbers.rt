//! Numbers, sets, digits and networks as JSON.
ghost use Rattle.std.specs.Prelude.{◌≡◌, IfOk};
ghost use Rattle.serde_json.specs.View.{view};
ghost use Rattle.gen_json.specs.JsonData.{digits_data, list_of, network_data, numbers_data, pairs_data};

use crate::objects::ObjectBuilder;
use gen_net::Net;
use gen_types::{GeneralNo, NumberSet};
use serde_json::Value;
use std::alloc::{AllocError, Global};

/// Returns bytes in hexadecimal digits.
///
/// # Errors
///
/// `AllocError` if memory is refused.
pub fn digits_value(alloc: Global, bytes: &[u8; 32]) -> Result<Value, AllocError>
    ensures { IfOk result (λ v. view v ≡ digits_data bytes.now) }
{
    let digits = hex::encode(alloc, *bytes)?;
    Ok(Value::String(digits))
}

/// Returns the list of strings of 32 bytes, each in hexadecimal digits.
///
/// # Errors
///
/// `AllocError` if memory is refused.
pub fn all_digits_value(alloc: Global, all: &[[u8; 32]]) -> Result<Value, AllocError>
    ensures { IfOk result (λ v. view v ≡ list_of digits_data all.now) }
{
    let mut list = Vec::new(alloc);
    for bytes in all {
        serde_json::push(&mut list, digits_value(alloc, bytes)?)?;
    }
    Ok(Value::Array(list))
}

/// Returns the list of the members of a set, ascending.
///
/// # Errors
///
/// `AllocError` if memory is refused.
pub fn set_value<K>(alloc: Global, set: &NumberSet<K>) -> Result<Value, AllocError>
    ensures { IfOk result (λ v. view v ≡ numbers_data set.now) }
{
    let mut list = Vec::new(alloc);
    for member in set.iter() {
        serde_json::push(&mut list, Value::from(member.get()))?;
    }
    Ok(Value::Array(list))
}

/// Returns the list of the generals of a path.
///
/// # Errors
///
/// `AllocError` if memory is refused.
pub fn path_value(alloc: Global, generals: &[GeneralNo]) -> Result<Value, AllocError>
    ensures { IfOk result (λ v. view v ≡ numbers_data generals.now) }
{
    let mut list = Vec::new(alloc);
    for general in generals {
        serde_json::push(&mut list, Value::from(general.get()))?;
    }
    Ok(Value::Array(list))
}

/// Returns the list of pairs of generals.
///
/// # Errors
///
/// `AllocError` if memory is refused.
pub fn pairs_value(alloc: Global, pairs: &[(GeneralNo, GeneralNo)]) -> Result<Value, AllocError>
    ensures { IfOk result (λ v. view v ≡ pairs_data pairs.now) }
{
    let mut list = Vec::new(alloc);
    for pair in pairs {
        let value = path_value(alloc, &[pair.0, pair.1])?;
        serde_json::push(&mut list, value)?;
    }
    Ok(Value::Array(list))
}

/// Returns the numbers of a network.
///
/// # Errors
///
/// `AllocError` if memory is refused.
pub fn network_value(alloc: Global, net: &Net) -> Result<Value, AllocError>
    ensures { IfOk result (λ v. view v ≡ network_data net.now) }
{
    let mut object = ObjectBuilder::new(alloc);
    object.put("choice", Value::from(net.choice().number()));
    object.put("diameter", Value::from(net.diameter()));
    object.put("generals", Value::from(net.generals()));
    object.put("orders", Value::from(net.orders()));
    object.put("traitors", Value::from(net.traitors()));
    object.finish()
}
