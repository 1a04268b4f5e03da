//! The fields of a script line: numbers and the bytes of a parcel.
ghost use Rattle.std.specs.Prelude.{◌≡◌, ◌<◌};
ghost use Rattle.gen_types.specs.Spelled.{IsRead};
ghost use Rattle.gen_script.specs.FieldReading.{number_in, round_in, neighbour_in, order_in};

use crate::fault::ScriptFault;
use gen_net::Net;
use gen_types::{GeneralNo, OrderNo, ReadError, check, decimal_number};
use std::alloc::Global;

/// What is needed to read a line of the script of the general `me` of this network. What is kept of the
/// line takes its memory from `alloc`.
#[derive(Drop)]
pub struct Reader<'a> {
    /// Where memory comes from.
    pub alloc: Global,
    /// The network of the runs.
    pub net: &'a Net,
    /// The general whose script is read.
    pub me: GeneralNo,
}

/// Returns the number, 0 to 255, that these decimal digits spell, and else the fault `Number`.
pub fn number_in(digits: &[u8]) -> Result<u8, ReadError<ScriptFault>>
    ensures { IsRead result (number_in digits.now) }
{
    match decimal_number(digits) {
        None => Err(ReadError::Fault(ScriptFault::Number)),
        Some(number) => Ok(number),
    }
}

/// Returns the round that these digits spell, which is at least `first` and at most the network's number
/// of rounds. The fault is `Number` if they spell no number, and `BadRound` if the number is out of this
/// range.
#[tactic(auto, unfolding(crate::specs::FieldReading::round_in))]
pub fn round_in(reader: &Reader<'_>, first: u8, digits: &[u8]) -> Result<u8, ReadError<ScriptFault>>
    ensures { IsRead result (round_in reader.now.net.now first digits.now) }
{
    let round = number_in(digits)?;
    check(
        first <= round && round <= reader.net.rounds(),
        ScriptFault::BadRound,
    )?;
    Ok(round)
}

/// Returns the neighbour whose number these digits spell, an end of an edge to the general whose script is
/// read. The fault is `Number` if they spell no number, and `NoNeighbour` if the number is no neighbour's.
#[tactic(auto, unfolding(crate::specs::FieldReading::neighbour_in))]
pub fn neighbour_in(reader: &Reader<'_>, digits: &[u8]) -> Result<GeneralNo, ReadError<ScriptFault>>
    ensures { IsRead result (neighbour_in reader.now.net.now reader.now.me digits.now) }
{
    let number = number_in(digits)?;
    if number >= reader.net.generals() {
        return Err(ReadError::Fault(ScriptFault::NoNeighbour));
    }
    let general = GeneralNo::at(number);
    check(
        reader.net.has_edge(reader.me, general),
        ScriptFault::NoNeighbour,
    )?;
    Ok(general)
}

/// Returns the order that these digits spell, which is below the network's number of orders. The fault is
/// `Number` if they spell no number, and `BadOrder` if the number is too great.
#[tactic(auto, unfolding(crate::specs::FieldReading::order_in))]
pub fn order_in(reader: &Reader<'_>, digits: &[u8]) -> Result<OrderNo, ReadError<ScriptFault>>
    ensures { IsRead result (order_in reader.now.net.now digits.now) }
{
    let order = number_in(digits)?;
    check(order < reader.net.orders(), ScriptFault::BadOrder)?;
    Ok(OrderNo::at(order))
}
