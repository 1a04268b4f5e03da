//! The first lines of a text: the numbers and edges of a network, and the commander's order.
ghost use Rattle.std.specs.Prelude.{◌≡◌, ◌<◌, length, map, IfOk};
ghost use Rattle.gen_types.specs.Reading.{Gives};
ghost use Rattle.gen_types.specs.Spelled.{IsRead};
ghost use Rattle.gen_net.specs.NetworkOf.{network_of};
ghost use Rattle.gen_text.specs.Cursor.{start_of};
ghost use Rattle.gen_text.specs.NumbersReading.{
  opening_at,
  settings_at,
  network_at,
  net_behind,
  plain_at,
};

use crate::cursor::Cursor;
use crate::fault::{LineFault, ScenarioFault};
use crate::lines::{edge_in, number_behind};
use gen_net::{Net, NetNumbers};
use gen_scenario::PlainScenario;
use gen_types::{OrderNo, ReadError};
use std::alloc::Global;

/// What the lines of a network up to that of the traitors say, and the cursor after them.
#[derive(Drop)]
pub struct NetOpening<'a> {
    /// The number of generals, 0 to 255.
    pub generals: u8,
    /// The two generals of each edge, in the order of their lines.
    pub edges: Vec<(u8, u8)>,
    /// The number of traitors, 0 to 255.
    pub traitors: u8,
    /// The cursor after the line of the traitors.
    pub after: Cursor<'a>,
}

/// Reads the first lines of a text, from that of the generals up to that of the traitors.
///
/// # Errors
///
/// The first fault of these lines, with its line, as `read_scenario` has it; Memory if memory was refused before.
pub fn first_opening(alloc: Global, text: &[u8]) -> Result<NetOpening<'_>, ReadError<ScenarioFault>>
    ensures { Gives (λ o. record {
      generals = o.generals;
      edges = o.edges.items;
      traitors = o.traitors;
      after = o.after;
    }) result (opening_at (start_of text.now)) }
{
    read_opening(alloc, &Cursor::start(text))
}

/// Reads the lines from that of the generals up to that of the traitors.
#[tactic(auto, unfolding(crate::specs::NumbersReading::opening_at))]
fn read_opening<'a>(
    alloc: Global,
    start: &Cursor<'a>,
) -> Result<NetOpening<'a>, ReadError<ScenarioFault>>
    ensures { Gives (λ o. record {
      generals = o.generals;
      edges = o.edges.items;
      traitors = o.traitors;
      after = o.after;
    }) result (opening_at start.now) }
{
    let (generals, mut cursor) = start.numbered(alloc, b"generals")?;
    let mut edges = Vec::new(alloc);
    'lines: loop {
        let (line, after) = cursor.next_line(alloc)?;
        match edge_in(&line.fields, line.number)? {
            None => {
                let traitors = number_behind(&line.fields, b"traitors", line.number)?;
                return Ok(NetOpening {
                    generals: generals.value,
                    edges,
                    traitors,
                    after,
                });
            }
            Some(edge) => edges.push(edge)?,
        }
        cursor = after;
    }
}

/// What the three lines of a network after that of the traitors say.
#[derive(Drop)]
pub struct NetSettings<'a> {
    /// The diameter, 0 to 255.
    pub diameter: u8,
    /// The number of orders, 0 to 255.
    pub orders: u8,
    /// The number of the choice, 0 to 255.
    pub choice: u8,
    /// The number of the line of the choice.
    pub line: usize,
    /// The cursor after the line of the choice.
    pub after: Cursor<'a>,
}

/// Reads the three lines after that of the traitors: the diameter, the orders and the choice.
///
/// # Errors
///
/// The first fault of these lines, with its line, as `read_scenario` has it; Memory if memory was refused before.
#[tactic(auto, unfolding(crate::specs::NumbersReading::settings_at))]
pub fn read_settings<'a>(
    alloc: Global,
    start: &Cursor<'a>,
) -> Result<NetSettings<'a>, ReadError<ScenarioFault>>
    ensures { Gives (λ s. record {
      diameter = s.diameter;
      orders = s.orders;
      choice = s.choice;
      line = s.line;
      after = s.after;
    }) result (settings_at start.now) }
{
    let (diameter, rest) = start.numbered(alloc, b"diameter")?;
    let (orders, rest) = rest.numbered(alloc, b"orders")?;
    let (choice, after) = rest.numbered(alloc, b"choice")?;
    Ok(NetSettings {
        diameter: diameter.value,
        orders: orders.value,
        choice: choice.value,
        line: choice.line,
        after,
    })
}

/// Returns the network of these numbers and edges.
///
/// # Errors
///
/// If the numbers or the edges break a rule of networks, the first broken rule as the fault of this line; Memory if
/// memory was refused before.
pub fn make_network(
    alloc: Global,
    numbers: NetNumbers,
    edges: &[(u8, u8)],
    line: usize,
) -> Result<Net, ReadError<ScenarioFault>>
    ensures { IsRead result (network_at line (network_of numbers edges.now)) }
{
    let made = Net::new(
        alloc,
        numbers.generals,
        edges,
        numbers.traitors,
        numbers.diameter,
        numbers.orders,
        numbers.choice,
    );
    match made {
        Ok(net) => Ok(net),
        Err(ReadError::Memory) => Err(ReadError::Memory),
        Err(ReadError::Fault(fault)) => Err(LineFault::Network(fault).refused(line)),
    }
}

/// Returns the network that begins with these opening lines, and the cursor after the line of its choice.
///
/// # Errors
///
/// The first fault of the lines after them, with its line, as `read_scenario` has it; Memory if memory was refused
/// before.
pub fn net_behind<'a>(
    alloc: Global,
    opening: NetOpening<'a>,
) -> Result<(Net, Cursor<'a>), ReadError<ScenarioFault>>
    ensures { IsRead result (net_behind (record {
      generals = opening.entry.generals;
      edges = opening.entry.edges.items;
      traitors = opening.entry.traitors;
      after = opening.entry.after;
    })) }
{
    let settings = read_settings(alloc, &opening.after)?;
    let numbers = NetNumbers {
        generals: opening.generals,
        traitors: opening.traitors,
        diameter: settings.diameter,
        orders: settings.orders,
        choice: settings.choice,
    };
    let net = make_network(alloc, numbers, &opening.edges, settings.line)?;
    Ok((net, settings.after))
}

/// Returns the network and the order whose lines begin here, and the cursor after them.
///
/// # Errors
///
/// The first fault of these lines, with its line, as `read_scenario` has it; Memory if memory was refused before.
#[tactic(auto, unfolding(crate::specs::NumbersReading::plain_at, crate::specs::NumbersReading::order_at))]
pub fn read_plain<'a>(
    alloc: Global,
    start: &Cursor<'a>,
) -> Result<(PlainScenario, Cursor<'a>), ReadError<ScenarioFault>>
    ensures { IsRead result (plain_at start.now) }
{
    let opening = read_opening(alloc, start)?;
    let (net, rest) = net_behind(alloc, opening)?;
    let (order, after) = rest.numbered(alloc, b"order")?;
    if order.value >= net.orders() {
        return Err(LineFault::UnknownOrder.refused(order.line));
    }
    Ok((PlainScenario::new(net, OrderNo::at(order.value)), after))
}
