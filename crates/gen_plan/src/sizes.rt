//! How long the frames and logs of a run can be, and how many bytes a run of correct generals sends.
ghost use Rattle.std.specs.Prelude.{ℕ, ◌≡◌, ◌/◌, ◌*◌, ◌+◌, ◌≤◌, ◌<◌, ◌^◌, IfSome, IfNone};
ghost use Rattle.gen_chain.specs.Chain.{signer_length};
ghost use Rattle.gen_net.specs.Network.{IsNetwork, rounds};
ghost use Rattle.gen_plan.specs.Sizes.{HasNeighbours, HasMostNeighbours, IsAway, IsFarAway, IsMessage, IsSentBy, IsSentBelow, IsRunSizes, log_most, message_bytes, order_most, receivers};

use crate::graph::Graph;
use crate::longest::{EMPTY_FRAME, frame_most, parcel_most};
use crate::search::joined_to;
use gen_chain::sizes::signers_bytes;
use gen_net::{Header, Net};
use gen_types::{GeneralNo, GeneralSet, TreeHeight};

/// How long a run can get.
#[derive(Clone, Copy, Debug, PartialEq, Eq)]
pub struct RunSizes {
    /// The number of rounds, 1 to 16.
    pub rounds: u8,
    /// The most bytes of a frame of a correct general.
    pub longest_frame: usize,
    /// The most bytes of a log of a correct general.
    pub longest_log: usize,
    /// The bytes of all frames of a run in which each general is correct, the empty frames too.
    pub run_bytes: usize,
}

/// Returns how many neighbours a general has.
fn neighbours_of(graph: &Graph, general: GeneralNo) -> usize
    ensures value { HasNeighbours graph.now general result }
    ensures few { result ≤ 16 }
{
    graph.neighbours(general).len()
}

/// Returns the most neighbours that a general has.
fn most_neighbours(graph: &Graph) -> usize
    ensures value { HasMostNeighbours graph.now result }
    ensures few { result ≤ 16 }
{
    let mut most = neighbours_of(graph, GeneralNo::at(0));
    for number in 1..graph.generals() {
        most = most.max(neighbours_of(graph, GeneralNo::at(number)));
    }
    most
}

/// Returns the most bytes of the log of a general with this many neighbours.
#[tactic(auto, unfolding(crate::specs::Sizes::log_most, crate::specs::Sizes::order_most))]
fn log_most(height: TreeHeight, net: &Net, neighbours: usize) -> usize
    requires { neighbours ≤ 16 }
    ensures { result ≡ log_most height net.now neighbours }
{
    let signer = signers_bytes(height, 1);
    let orders = usize::from(net.orders());
    let rounds = usize::from(net.rounds());
    let values = orders * (2 + rounds + signer);
    let order = 4 + 5 * rounds + signer * (rounds * (rounds + 1) / 2);
    46 + signer + values + neighbours * orders * order
}

/// Returns how many edges a general is away from general 0, if these are fewer than `rounds`.
fn away(graph: &Graph, rounds: u8, general: GeneralNo) -> Option<u8>
    ensures some { IfSome result (λ edges. (edges < rounds) × IsAway graph.now general edges) }
    ensures none { IfNone result (IsFarAway graph.now rounds general) }
{
    let nobody = GeneralSet::new();
    for edges in 0..rounds {
        if joined_to(graph, &nobody, general, edges).contains(GeneralNo::at(0)) {
            return Some(edges);
        }
    }
    None
}

/// Returns the bytes of the parcels of the message that a general sends, so many edges away from general 0: general 0
/// sends it to each neighbour, another not to that from which it came.
#[tactic(auto, unfolding(crate::specs::Sizes::message_bytes))]
fn message_bytes(height: TreeHeight, neighbours: usize, edges: u8) -> usize
    requires neighbours { neighbours ≤ 16 }
    requires edges { edges < 16 }
    ensures value { result ≡ message_bytes height neighbours edges }
    ensures small { result < 2 ^ 40 }
{
    let receivers = if edges == 0 {
        neighbours
    } else {
        neighbours.saturating_sub(1)
    };
    receivers * parcel_most(height, edges + 1)
}

/// Returns the bytes that a general sends in a run in which each is correct: its frames, and its message, if that does
/// not come too late to be sent on.
fn sent_by(graph: &Graph, height: TreeHeight, count: u8, general: GeneralNo) -> usize
    requires few { count ≤ 16 }
    requires rounds { count ≡ rounds graph.now }
    ensures value { IsSentBy height graph.now general result }
    ensures small { result < 2 ^ 41 }
{
    let neighbours = neighbours_of(graph, general);
    let frames = neighbours * usize::from(count) * EMPTY_FRAME;
    match away(graph, count, general) {
        Some(edges) => frames + message_bytes(height, neighbours, edges),
        None => frames,
    }
}

/// Returns the bytes that all generals send in a run in which each is correct.
fn run_bytes(graph: &Graph, height: TreeHeight, count: u8) -> usize
    requires few { count ≤ 16 }
    requires rounds { count ≡ rounds graph.now }
    ensures { IsSentBelow height graph.now graph.now.generals result }
{
    let mut total = 0;
    for number in 0..graph.generals() {
        total += sent_by(graph, height, count, GeneralNo::at(number));
    }
    total
}

/// Returns how long a run of a header can get. It takes no memory.
pub fn sizes_of(header: &Header) -> RunSizes
    ensures { IsRunSizes header.now result }
{
    let net = header.net();
    let height = header.height();
    let rounds = net.rounds();
    let graph = Graph::of(net);
    RunSizes {
        rounds,
        longest_frame: frame_most(header),
        longest_log: log_most(height, net, most_neighbours(&graph)),
        run_bytes: run_bytes(&graph, height, rounds),
    }
}
