//! Checks evidence.
ghost use Rattle.std.specs.Prelude.{IsTrue, ◌≡◌, ◌<◌, ◌↔◌, IfOk, IfSome, None, List, ℕ};
ghost use Rattle.gen_net.specs.Header.{IsHeader};
ghost use Rattle.gen_log.specs.Links.{HeadVerifies};
ghost use Rattle.gen_log.specs.Log.{RunLog};
ghost use Rattle.gen_log.specs.Verifying.{SaysItIsOf};
ghost use Rattle.gen_local.specs.SignedTexts.{stated};
ghost use Rattle.gen_convict.specs.Accused as accused_texts;
ghost use Rattle.gen_convict.specs.Contradictions.{AreTwoTexts, AreTwoOrders, IsSealedLogOf, IsMissingFrom, IsDepartingAt, IsContradiction};
ghost use Rattle.gen_convict.specs.Told.{told};

use crate::across_checking::is_across_from;
use crate::claims::Claim;
use crate::evidence::Evidence;
use crate::text_likeness::is_unlike;
use gen_chain::{Statement, has_signed, head_digest, leaf_of_head};
use gen_local::{SignedText, Text, departs, says_it_is_of};
use gen_log::{Log, has_sign, head_verifies, read_log};
use gen_net::Header;
use gen_tree::{Signature, verify};
use gen_types::{GeneralNo, OrderNo, Path, ReadError};
use std::alloc::{AllocError, Global};

/// Whether a statement verifies as the general's: its path ends with the general, and the signature verifies.
fn statement_verifies(
    header: &Header,
    general: GeneralNo,
    statement: &Statement,
    signature: &Signature,
) -> bool
    ensures { IsTrue result ↔ accused_texts.TextVerifies header.now general
        (stated statement.now.order statement.now.path general signature.now) }
{
    statement.path.ends_with(general) && has_signed(header, general, statement, signature)
}

/// Returns whether a signed text verifies as the general's: it names the general as its signer, it is the general's
/// text, and its signature verifies. The general's texts are the statements whose paths end with the general, and the
/// heads that name it.
pub fn text_verifies(header: &Header, general: GeneralNo, text: &SignedText) -> bool
    requires { general < header.now.network.generals }
    ensures { IsTrue result ↔ accused_texts.TextVerifies header.now general text.now }
{
    if text.signer != general {
        return false;
    }
    let signature = &text.signature;
    match &text.text {
        Text::OfStatement(statement) => statement_verifies(header, general, statement, signature),
        Text::OfHead(head) => {
            let digest = head_digest(header, head);
            let leaf = leaf_of_head(header);
            let root = header.root(general);
            head.general == general && verify(root, header.height(), leaf, &digest, signature)
        }
    }
}

/// Whether the commander's signature verifies on the statement of this order and the path of the commander alone.
fn command_verifies(header: &Header, order: OrderNo, signature: &Signature) -> bool
    ensures { IsTrue result ↔ accused_texts.TextVerifies header.now 0
        (accused_texts.command order signature.now) }
{
    let path = Path::commander();
    let statement = Statement { order, path };
    statement_verifies(header, GeneralNo::at(0), &statement, signature)
}

/// Whether both texts verify as the general's and contradict each other.
#[tactic(auto, using(crate::proofs::FoundTexts::unlike_gives, crate::proofs::FoundTexts::unlike_told))]
fn are_two_texts(
    header: &Header,
    general: GeneralNo,
    first: &SignedText,
    second: &SignedText,
) -> bool
    requires { general < header.now.network.generals }
    ensures { IsTrue result ↔ AreTwoTexts header.now general first.now second.now }
{
    text_verifies(header, general, first)
        && text_verifies(header, general, second)
        && is_unlike(&first.text, &second.text)
}

/// Whether the general is the commander, both orders verify as the commander's, and they differ.
fn are_two_orders(
    header: &Header,
    general: GeneralNo,
    first: OrderNo,
    first_signature: &Signature,
    second: OrderNo,
    second_signature: &Signature,
) -> bool
    ensures { IsTrue result
        ↔ AreTwoOrders header.now general first first_signature.now second second_signature.now }
{
    if general.get() != 0 || first == second {
        return false;
    }
    command_verifies(header, first, first_signature)
        && command_verifies(header, second, second_signature)
}

/// Whether a log says that it is the general's of this run, and its head verifies.
pub fn is_sealed_by(header: &Header, general: GeneralNo, log: &Log) -> bool
    requires { general < header.now.network.generals }
    ensures { IsTrue result
        ↔ (SaysItIsOf header.now general log.now × HeadVerifies header.now general log.now) }
{
    says_it_is_of(header, general, log) && head_verifies(header, general, log)
}

/// Reads the bytes as a log, and returns it if it says that it is the general's of this run and its head verifies.
fn sealed_log(
    alloc: Global,
    header: &Header,
    general: GeneralNo,
    bytes: &[u8],
) -> Result<Option<Log>, AllocError>
    requires { general < header.now.network.generals }
    ensures header { IsHeader header.now }
    ensures found { IfOk result (λ log. IfSome log (IsSealedLogOf header.now general bytes.now)) }
    ensures none { IfOk result (λ log. log ≡ None
        → (other : RunLog) → IsSealedLogOf header.now general bytes.now other → ⊥) }
{
    // Reading the network makes the header's invariant known.
    let _net = header.net();
    match read_log(alloc, header, bytes) {
        Err(ReadError::Memory) => Err(AllocError),
        Err(ReadError::Fault(_)) => Ok(None),
        Ok(log) => {
            let sealed = is_sealed_by(header, general, &log);
            if !sealed {
                return Ok(None);
            }
            Ok(Some(log))
        }
    }
}

/// Whether a statement that verifies as the general's is missing from a log that the general sealed.
fn is_missing_from(
    alloc: Global,
    header: &Header,
    general: GeneralNo,
    bytes: &[u8],
    statement: &Statement,
    signature: &Signature,
) -> Result<bool, AllocError>
    requires { general < header.now.network.generals }
    ensures { IfOk result (λ told. IsTrue told
        ↔ IsMissingFrom header.now general bytes.now statement.now signature.now) }
{
    match sealed_log(alloc, header, general, bytes)? {
        None => Ok(false),
        Some(log) => {
            if has_sign(&log, statement) {
                return Ok(false);
            }
            Ok(statement_verifies(header, general, statement, signature))
        }
    }
}

/// Whether the bytes are a log that the general sealed and that departs at this entry.
fn is_departing_at(
    alloc: Global,
    header: &Header,
    general: GeneralNo,
    bytes: &[u8],
    entry: u32,
) -> Result<bool, AllocError>
    requires { general < header.now.network.generals }
    ensures { IfOk result (λ told. IsTrue told
        ↔ IsDepartingAt header.now general bytes.now entry) }
{
    match sealed_log(alloc, header, general, bytes)? {
        None => Ok(false),
        Some(log) => match departs(header, &log) {
            Some(index) => Ok(index == entry as usize),
            None => Ok(false),
        },
    }
}

/// Returns whether evidence holds against the accused, a general of the network. Either its two texts verify as the
/// accused's and contradict each other, or its log is sealed by the accused and lacks the statement or departs at the
/// entry. A log that doesn't read is no error: then the evidence doesn't hold.
///
/// # Errors
///
/// `AllocError` where memory is refused.
pub fn check_evidence(
    alloc: Global,
    header: &Header,
    evidence: &Evidence,
) -> Result<bool, AllocError>
    requires { evidence.now.accused < header.now.network.generals }
    ensures { IfOk result (λ holds. IsTrue holds
        ↔ IsContradiction header.now evidence.now.accused (told evidence.now.claim)) }
{
    let accused = evidence.accused;
    match &evidence.claim {
        Claim::Texts { first, second } => Ok(are_two_texts(header, accused, first, second)),
        Claim::Orders {
            first,
            first_signature,
            second,
            second_signature,
        } => Ok(are_two_orders(
            header,
            accused,
            *first,
            first_signature,
            *second,
            second_signature,
        )),
        Claim::Missing {
            log,
            statement,
            signature,
        } => is_missing_from(alloc, header, accused, log.as_slice(), statement, signature),
        Claim::Departing { log, entry } => {
            is_departing_at(alloc, header, accused, log.as_slice(), *entry)
        }
        Claim::Across { first, second } => Ok(is_across_from(header, accused, first, second)),
    }
}
