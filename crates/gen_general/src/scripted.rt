//! What a general with a script sends in a round.
ghost use Rattle.std.specs.Prelude.{◌≡◌, ◌≢◌, ◌++◌, ℕ, AllPairs, Contains, map, Some, option_map, option_to_list, IfOk, IfSome, OnOk};
ghost use Rattle.std.specs.List.{list_any};
ghost use Rattle.gen_types.specs.Ends.{is_among};
ghost use Rattle.gen_net.specs.Header.{height_of};
ghost use Rattle.gen_chain.specs.Chain.{IsSignedChain, chain_spelling, signed_path};
ghost use Rattle.gen_script.specs.Line.{IsScriptLine};
ghost use Rattle.gen_scenario.specs.declared.heard.Heard.{Heard as Came};
ghost use Rattle.gen_general.specs.declared.scripted.Planned.TheVariants.{Bytes};
ghost use Rattle.gen_scenario.specs.Signing.{bent, flipped};
ghost use Rattle.gen_scenario.specs.Frames.{passed};
ghost use Rattle.gen_general.specs.Planned as plans;
ghost use Rattle.gen_general.specs.Planned.{bytes_of, planned_in, planned_of, planned_to, receiver_of};
ghost use Rattle.gen_scenario.specs.SignerTrees.{ArePlayable, CanSign, CanSignAll, CanSignLine, keys_with};

use crate::hearing::find_heard;
use crate::signing::{lengthen_along, make_along};
use gen_chain::{SignedChain, write_chain};
use gen_net::Header;
use gen_scenario::{Heard, SignerTree};
use gen_script::{Parcel, ScriptLine};
use gen_tree::sizes::signature_bytes;
use gen_types::{GeneralNo, Path};
use std::alloc::{AllocError, Global};

/// The most significant bit of a byte.
const TOP_BIT: u8 = 0x80;

/// What a line of a script sends: a chain, or other bytes.
#[derive(Debug, Drop)]
pub enum Planned {
    /// A chain that the line has its general sign.
    Chain {
        /// The neighbour that gets it.
        to: GeneralNo,
        /// The chain.
        chain: SignedChain,
    },
    /// A parcel of bytes, which has no entry in the general's log.
    Bytes {
        /// The neighbour that gets it.
        to: GeneralNo,
        /// The parcel.
        parcel: Parcel,
    },
}

impl Planned {
    /// Returns the neighbour that gets it.
    pub(crate) fn to(&self) -> GeneralNo
        ensures { result ≡ receiver_of self.now }
    {
        match self {
            Planned::Chain { to, .. } | Planned::Bytes { to, .. } => *to,
        }
    }
}

/// Whether the line sends something in this round.
fn is_sent_in(line: &ScriptLine, at: u8) -> bool
    ensures { result ≡ plans.is_sent_in at line.now }
{
    match line {
        ScriptLine::Make { round, .. }
        | ScriptLine::Pass { round, .. }
        | ScriptLine::Bend { round, .. }
        | ScriptLine::Raw { round, .. } => *round == at,
        ScriptLine::Hide { .. } | ScriptLine::TwoHeads => false,
    }
}

/// Whether the general is in the path.
pub(crate) fn stands_in(path: &Path, general: GeneralNo) -> bool
    ensures { result ≡ is_among path.now general }
{
    path.contains(general)
}

/// Whether a general of the path is among those that have signed.
fn repeats(signed: &Path, path: &[GeneralNo]) -> bool
    ensures { result ≡ list_any (is_among signed.now) path.now }
{
    path.iter().any(|general| stands_in(signed, *general))
}

/// Returns the chain that was heard, lengthened by a path, or none if nothing was heard or a general would
/// sign twice.
fn pass_along(
    alloc: Global,
    header: &Header,
    trees: &[SignerTree],
    path: &[GeneralNo],
    heard: Option<&Heard>,
) -> Result<Option<SignedChain>, AllocError>
    requires signers { CanSignAll header.now trees.now path.now }
    requires distinct { AllPairs (λ g h. g ≢ h) path.now }
    requires height { (x : Came) → option_map (λ came. came.now) heard ≡ Some x
        → IsSignedChain (height_of header.now) x.chain }
    ensures chain { IfOk result (λ chain. option_to_list chain
        ≡ passed (keys_with header.now trees.now) path.now (option_map (λ came. came.now) heard.entry)) }
{
    let Some(came) = heard else {
        return Ok(None);
    };
    if repeats(&came.chain.path(), path) {
        return Ok(None);
    }
    let longer = lengthen_along(alloc, header, trees, &came.chain, path)?;
    Ok(Some(longer))
}

/// Returns the byte with its most significant bit flipped.
fn flip_top_bit(byte: u8) -> u8
    ensures { result ≡ flipped byte }
{
    byte ^ TOP_BIT
}

/// Returns the bytes of the chain, if there is one, as planned for a neighbour, with the most significant bit
/// of the last signature's first byte flipped.
fn bent_to(
    alloc: Global,
    to: GeneralNo,
    chain: Option<SignedChain>,
) -> Result<Option<Planned>, AllocError>
    ensures { IfOk result (λ planned. option_to_list planned
        ≡ map (Bytes to) (map (λ c. chain_spelling (bent c)) (option_to_list chain))) }
{
    let Some(chain) = chain else {
        return Ok(None);
    };
    let mut bytes = write_chain(alloc, &chain)?;
    let last_signature = bytes.len() - signature_bytes(chain.height());
    bytes[last_signature] = flip_top_bit(bytes[last_signature]);
    let parcel = Parcel::new(bytes);
    Ok(Some(Planned::Bytes { to, parcel }))
}

/// Returns what a line sends, whatever its round.
fn plan_line(
    alloc: Global,
    header: &Header,
    me: GeneralNo,
    trees: &[SignerTree],
    line: &ScriptLine,
    heard: &[Heard],
) -> Result<Option<Planned>, AllocError>
    requires me { CanSign header.now trees.now me }
    requires lawful { IsScriptLine header.now.network me line.now }
    requires signers { CanSignLine header.now trees.now line.now }
    requires heard { (x : Came) → Contains heard.now x
        → IsSignedChain (height_of header.now) x.chain }
    ensures { IfOk result (λ planned. option_to_list planned
        ≡ planned_of (keys_with header.now trees.now) me heard.now line.now) }
{
    let _few_orders = header.net();
    match line {
        ScriptLine::Make {
            to,
            order,
            path,
            ..
        } => {
            let chain = make_along(alloc, header, trees, *order, path)?;
            Ok(Some(Planned::Chain { to: *to, chain }))
        }
        ScriptLine::Pass {
            round,
            to,
            from,
            order,
            path,
        } => {
            let came = find_heard(*round - path.len() as u8, *from, *order, heard);
            let chain = pass_along(alloc, header, trees, path.generals(), came)?;
            Ok(chain.map(|chain| Planned::Chain { to: *to, chain }))
        }
        ScriptLine::Bend {
            round,
            to,
            from,
            order,
        } => {
            let came = find_heard(*round - 1, *from, *order, heard);
            let chain = pass_along(alloc, header, trees, &[me], came)?;
            bent_to(alloc, *to, chain)
        }
        ScriptLine::Raw { to, parcel, .. } => {
            let parcel = parcel.clone()?;
            Ok(Some(Planned::Bytes { to: *to, parcel }))
        }
        ScriptLine::Hide { .. } | ScriptLine::TwoHeads => Ok(None),
    }
}

/// Returns what the lines of a general's script send in a round, in their order; `heard` is what the general
/// heard in earlier rounds. A `make` line sends a chain that all of its path have signed. A `pass` line sends
/// the chain that it names, lengthened by its path, unless that chain did not count at this general or a
/// general would sign twice. A `bend` line sends the bytes of such a chain, lengthened by this general alone,
/// with one bit of its signature flipped. A `raw` line sends its own bytes.
///
/// The lines must be lawful lines of this general's script, and the signatures that they ask for must be
/// possible with these trees. The chains that were heard must be signed with trees of the run's height. Each
/// signature is made with a ring that is opened anew from its signer's tree.
///
/// # Errors
///
/// `AllocError` if memory is refused.
pub(crate) fn plan_round(
    alloc: Global,
    header: &Header,
    me: GeneralNo,
    trees: &[SignerTree],
    lines: &[ScriptLine],
    heard: &[Heard],
    round: u8,
) -> Result<Vec<Planned>, AllocError>
    requires script { ArePlayable header.now trees.now me lines.now }
    requires heard { (x : Came) → Contains heard.now x
        → IsSignedChain (height_of header.now) x.chain }
    ensures { IfOk result (λ planned. planned.items
        ≡ planned_in (keys_with header.now trees.now) me lines.now heard.now round) }
{
    let mut planned = Vec::new(alloc);
    'lines: for line in lines {
        if !is_sent_in(line, round) {
            continue;
        }
        if let Some(one) = plan_line(alloc, header, me, trees, line, heard)? {
            planned.push(one)?;
        }
    }
    Ok(planned)
}

/// Returns the frame to a neighbour: the parcels of what is planned for that neighbour, in their order. The
/// parcel of a chain has the bytes of the chain.
///
/// # Errors
///
/// `AllocError` if memory is refused.
pub(crate) fn planned_frame(
    alloc: Global,
    planned: &[Planned],
    to: GeneralNo,
) -> Result<Vec<Parcel>, AllocError>
    ensures { IfOk result (λ parcels. parcels.items ≡ map bytes_of (planned_to to planned.now)) }
{
    let mut parcels = Vec::new(alloc);
    'planned: for one in planned {
        if one.to() != to {
            continue;
        }
        let parcel = match one {
            Planned::Chain { chain, .. } => Parcel::new(write_chain(alloc, chain)?),
            Planned::Bytes { parcel, .. } => parcel.clone()?,
        };
        parcels.push(parcel)?;
    }
    Ok(parcels)
}
