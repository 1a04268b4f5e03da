//! Gathers the texts of a log whose signatures verify.
ghost use Rattle.std.specs.Prelude.{◌≡◌, ◌≢◌, ◌≤◌, ◌++◌, ◌∷◌, [], Some, None, IfOk, OnOk, AllPairs, length, filter};
ghost use Rattle.std.specs.List.{list_all, flat_map};
ghost use Rattle.gen_chain.specs.Chain.{signed_path};
ghost use Rattle.gen_chain.specs.Store.{Serves, KeepsAll};
ghost use Rattle.gen_local.specs.FoundLog.{is_signed, first_unsigned};
ghost use Rattle.gen_local.specs.SignedTexts.{stated, texts_behind, texts_in, text_verifies, verified};

use crate::ahead::verify_next;
use crate::texts::{SignedText, Text};
use gen_chain::{Signer, Statement, VerifyStore};
use gen_log::Entry;
use gen_net::Header;
use gen_tree::Signature;
use gen_types::{GeneralNo, OrderNo, Path};
use std::alloc::{AllocError, Global};

/// Appends a text if its signature verifies.
pub fn put_if(
    alloc: Global,
    texts: &mut Vec<SignedText>,
    verifies: bool,
    signer: GeneralNo,
    text: Text,
    signature: &Signature,
) -> Result<(), AllocError>
    ensures { OnOk result (texts.new.items ≡ texts.old.items ++ filter (λ t. verifies)
        ((record { signer = signer; text = text; signature = signature.now }) ∷ [])) }
{
    if verifies {
        texts.push(SignedText {
            signer,
            text,
            signature: signature.share(alloc)?,
        })?;
    }
    Ok(())
}

/// Appends a statement if its signature verifies, and returns whether it does.
fn gather_statement(
    alloc: Global,
    header: &Header,
    signer: GeneralNo,
    statement: Statement,
    signature: &Signature,
    store: &mut VerifyStore,
    texts: &mut Vec<SignedText>,
) -> Result<bool, AllocError>
    requires { Serves header.now store.old }
    ensures told { IfOk result (λ told. told ≡ text_verifies header.now
        (stated statement.order statement.path signer signature.now)) }
    ensures texts { OnOk result (texts.new.items ≡ texts.old.items ++ verified header.now
        (stated statement.order statement.path signer signature.now ∷ [])) }
    ensures grows { KeepsAll store.old store.new }
    ensures serves { Serves header.now store.new }
{
    let verifies = store.check(header, signer, &statement, signature)?;
    let text = Text::OfStatement(statement);
    put_if(alloc, texts, verifies, signer, text, signature)?;
    Ok(verifies)
}

/// Appends the texts of an entry whose signatures verify, and returns whether all of them do.
fn gather_entry(
    alloc: Global,
    header: &Header,
    entry: &Entry,
    store: &mut VerifyStore,
    texts: &mut Vec<SignedText>,
) -> Result<bool, AllocError>
    requires { Serves header.now store.old }
    ensures told { IfOk result (λ all. all ≡ is_signed header.now entry.now) }
    ensures texts { OnOk result (texts.new.items
        ≡ texts.old.items ++ verified header.now (texts_in entry.now)) }
    ensures grows { KeepsAll store.old store.new }
    ensures serves { Serves header.now store.new }
{
    match entry {
        Entry::Sign {
            order,
            path,
            signature,
        } => match path.last() {
            None => Ok(true),
            Some(last) => {
                let statement = Statement {
                    order: *order,
                    path: *path,
                };
                gather_statement(alloc, header, last, statement, signature, store, texts)
            }
        },
        Entry::Recv { from: _, chain } => {
            // Reading the height makes the chain's invariant known: its signers are few and distinct.
            let _height = chain.height();
            let order = chain.order();
            let mut path = Path::new();
            let mut rest = chain.signers();
            let mut all = true;
            while let Some((signer, others)) = rest.split_first() {
                path.push_new(signer.general);
                let statement = Statement { order, path };
                let general = signer.general;
                let signature = &signer.signature;
                all &= gather_statement(
                    alloc, header, general, statement, signature, store, texts,
                )?;
                rest = others;
            }
            Ok(all)
        }
        _ => Ok(true),
    }
}

/// Appends the texts of entries whose signatures verify. Returns the index of the first entry with a signature that
/// doesn't verify, if there is one.
pub fn gather_entries(
    alloc: Global,
    header: &Header,
    entries: &[Entry],
    store: &mut VerifyStore,
    texts: &mut Vec<SignedText>,
) -> Result<Option<usize>, AllocError>
    requires { Serves header.now store.old }
    ensures first { IfOk result (λ first. first ≡ first_unsigned header.now 0 entries.now) }
    ensures texts { OnOk result (texts.new.items
        ≡ texts.old.items ++ verified header.now (flat_map texts_in entries.now)) }
    ensures grows { KeepsAll store.old store.new }
    ensures serves { Serves header.now store.new }
{
    let mut unsigned = None;
    let mut rest = entries;
    let mut index = 0usize;
    while let Some((entry, others)) = rest.split_first() {
        verify_next(alloc, header, rest, store)?;
        let signed = gather_entry(alloc, header, entry, store, texts)?;
        unsigned = unsigned.or((!signed).then_some(index));
        index += 1;
        rest = others;
    }
    Ok(unsigned)
}
