//! The runs that a file is of.
ghost use Rattle.std.specs.Prelude.{◌≡◌, IfOk, option_map};
ghost use Rattle.gen_file.specs.Kinds.{file_kind};
ghost use Rattle.gen_campaign.specs.FileRuns.{run_ids, runs_as};

use crate::campaign_reading::read_campaign;
use gen_audit::Bundle;
use gen_convict::read_evidence;
use gen_file::{FileKind, file_kind};
use gen_net::read_header;
use gen_types::ReadError;
use std::alloc::{AllocError, Global};

/// Returns the ids of the runs of bundles, in their order. It fails only if memory was refused.
pub fn run_ids(alloc: Global, bundles: &[Bundle]) -> Result<Vec<[u8; 32]>, AllocError>
    ensures { IfOk result (λ ids. ids.items ≡ run_ids bundles.now) }
{
    let mut ids = Vec::new(alloc);
    'bundles: for bundle in bundles {
        ids.push(*bundle.header().run_id())?;
    }
    Ok(ids)
}

/// Returns the ids of the runs of a file in their order: that of a header or of evidence, those of a bundle or a campaign.
/// None if the file is not whole. It fails only if memory was refused.
pub fn file_runs(alloc: Global, input: &[u8]) -> Result<Option<Vec<[u8; 32]>>, AllocError>
    ensures { IfOk result (λ ids. option_map (λ v. v.items) ids ≡ runs_as (file_kind input.now) input.now) }
{
    match file_kind(input) {
        FileKind::OfHeader => match read_header(alloc, input) {
            Ok((header, count)) => {
                if count == input.len() {
                    Ok(Some(Vec::from_slice(alloc, &[*header.run_id()])?))
                } else {
                    Ok(None)
                }
            }
            Err(ReadError::Memory) => Err(AllocError),
            Err(ReadError::Fault(_)) => Ok(None),
        },
        FileKind::OfEvidence => match read_evidence(alloc, input) {
            Ok((header, _evidence)) => Ok(Some(Vec::from_slice(alloc, &[*header.run_id()])?)),
            Err(ReadError::Memory) => Err(AllocError),
            Err(ReadError::Fault(_)) => Ok(None),
        },
        FileKind::OfCampaign => match read_campaign(alloc, input) {
            Ok(campaign) => Ok(Some(run_ids(alloc, campaign.bundles())?)),
            Err(ReadError::Memory) => Err(AllocError),
            Err(ReadError::Fault(_)) => Ok(None),
        },
    }
}
