//! Names the runs that an input is of.
ghost use Rattle.std.specs.Prelude.{◌≡◌, IfOk, option_map};
ghost use Rattle.gen_file.specs.Kinds.{file_kind};
ghost use Rattle.gen_telling.specs.Naming.{ids_text};
ghost use Rattle.gen_campaign.specs.FileRuns.{runs_as};

use gen_campaign::file_runs;
use std::alloc::{AllocError, Global};

/// Returns run ids in 64 hexadecimal digits each, with commas between them.
fn ids_text(alloc: Global, ids: &[[u8; 32]]) -> Result<Vec<u8>, AllocError>
    ensures { IfOk result (λ text. text.items ≡ ids_text ids.now) }
{
    let mut text = Vec::new(alloc);
    let Some((first, others)) = ids.split_first() else {
        return Ok(text);
    };
    let digits = hex::encode(alloc, *first)?;
    text.extend_from_slice(digits.as_bytes())?;
    for id in others {
        let digits = hex::encode(alloc, *id)?;
        text.push(b',')?;
        text.extend_from_slice(digits.as_bytes())?;
    }
    Ok(text)
}

/// Returns the ids of the runs of a file in their order: a bundle, a campaign, evidence or a header. Each is 64
/// hexadecimal digits of lower case, and commas stand between them. None if the file is not whole. It fails only if
/// memory was refused.
pub fn name_file(alloc: Global, input: &[u8]) -> Result<Option<Vec<u8>>, AllocError>
    ensures { IfOk result (λ text. option_map (λ v. v.items) text
        ≡ option_map ids_text (runs_as (file_kind input.now) input.now)) }
{
    match file_runs(alloc, input)? {
        Some(ids) => Ok(Some(ids_text(alloc, ids.as_slice())?)),
        None => Ok(None),
    }
}
