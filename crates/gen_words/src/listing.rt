//! The words that name several files in the place of one, or a list of their names.
ghost use Rattle.std.specs.Prelude.{◌≡◌, ◌++◌, IfErr, IfOk, map, nat_le};
ghost use Rattle.clap.specs.Words.{found_of, first_of, rows_of};
ghost use Rattle.gen_words.specs.Listing.{AsksForListing, IsListingFault, IsListingFaultOf, SaysListing, read_words};
ghost use Rattle.gen_words.specs.Several.{standards};

use crate::several::{read_once, text_of, texts_of};
use crate::words::{WordsFault, matches_of};
use clap::ArgMatches;
use std::alloc::{AllocError, Global};

/// The files that words name where a command answers several.
#[derive(Debug, Drop)]
pub struct Listing<'a> {
    /// The words for the files, in their order. A minus stands for standard input, once at most.
    pub files: Vec<&'a str>,
    /// The word for the file of a list of more names, if there is one. A minus stands for standard input.
    pub list: Option<&'a str>,
}

/// Returns all words for files that are read: those of the inputs, that of a list and that of an admission.
fn read_words<'a>(alloc: Global, inner: &ArgMatches<'a>) -> Result<Vec<&'a str>, AllocError>
    ensures { IfOk result (λ all. map (λ w. w.now) all.items ≡ read_words (rows_of (found_of inner.now))) }
{
    let mut all = texts_of(alloc, inner, "file")?;
    if let Some(list) = text_of(inner, "files-from") {
        all.push(list)?;
    }
    if let Some(admission) = text_of(inner, "admission") {
        all.push(admission)?;
    }
    Ok(all)
}

/// Returns what the arguments of a command say, if they name several files or a list.
fn listing_said<'a>(
    alloc: Global,
    inner: &ArgMatches<'a>,
) -> Result<Option<Listing<'a>>, WordsFault>
    ensures said { IfOk result (SaysListing (rows_of (found_of inner.now))) }
    ensures fault { IfErr result (IsListingFault (rows_of (found_of inner.now))) }
{
    let list = text_of(inner, "files-from");
    let files = texts_of(alloc, inner, "file")?;
    if list.is_none() && files.len() < 2 {
        return Ok(None);
    }
    // No file is named by an empty word, so it counts for nothing here.
    if !read_once("", &read_words(alloc, inner)?) {
        return Err(WordsFault::TwoStandard);
    }
    Ok(Some(Listing { files, list }))
}

/// Returns the files that words name, if they name several or a list of names; the first word is the program's name. None
/// if they name one file at most, or no command.
///
/// # Errors
///
/// `TwoStandard` if several of these files, the list and the file of an admission are standard input. `Memory` if memory
/// was refused. A mistake that the command line finds is told by `read_request`.
pub fn read_listing<'a>(
    alloc: Global,
    words: &'a [&'a str],
) -> Result<Option<Listing<'a>>, WordsFault>
    ensures said { IfOk result (AsksForListing (map (λ w. w.now) words.now)) }
    ensures fault { IfErr result (IsListingFaultOf (map (λ w. w.now) words.now)) }
{
    let matches = match matches_of(alloc, words) {
        Ok(matches) => matches,
        Err(WordsFault::Memory) => return Err(WordsFault::Memory),
        // What else the command line finds is told where one file is named.
        Err(_) => return Ok(None),
    };
    let Some((_, inner)) = matches.subcommand() else {
        return Ok(None);
    };
    listing_said(alloc, inner)
}
