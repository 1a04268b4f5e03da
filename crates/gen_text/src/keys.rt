//! The lines after that of the order that may be absent: the seed of all keys, and the slot of the run.
ghost use Rattle.std.specs.Prelude.{◌≡◌};
ghost use Rattle.gen_types.specs.Reading.{Gives};
ghost use Rattle.gen_types.specs.Spelled.{IsRead};
ghost use Rattle.gen_text.specs.KeysReading.{seed_at, slot_at, version_with};

use crate::cursor::Cursor;
use crate::fault::{LineFault, ScenarioFault};
use crate::lines::number_in;
use gen_net::{GREATEST_SLOT, Version};
use gen_types::ReadError;
use hex::FromHex;
use std::alloc::Global;

/// Returns the seed and the cursor behind it, if its line begins here; else None and the cursor as it was.
///
/// # Errors
///
/// The first fault of this line; Memory if memory was refused before.
#[tactic(auto, unfolding(crate::specs::KeysReading::seed_at, crate::specs::KeysReading::seed_in))]
pub fn read_seed<'a>(
    alloc: Global,
    start: Cursor<'a>,
) -> Result<(Option<[u8; 32]>, Cursor<'a>), ReadError<ScenarioFault>>
    ensures { IsRead result (seed_at start.entry) }
{
    let (line, after) = start.next_line(alloc)?;
    match line.fields.as_slice() {
        [word, digits] if *word == b"seed".as_slice() => {
            match <[u8; 32] as FromHex>::from_hex(*digits) {
                Ok(seed) => Ok((Some(seed), after)),
                Err(_) => Err(LineFault::BadSeed.refused(line.number)),
            }
        }
        _ => Ok((None, start)),
    }
}

/// Returns the slot and the cursor behind it, if its line begins here; else None and the cursor as it was.
///
/// # Errors
///
/// The first fault of this line; Memory if memory was refused before.
#[tactic(auto, unfolding(crate::specs::KeysReading::slot_at, crate::specs::KeysReading::slot_in))]
pub fn read_slot<'a>(
    alloc: Global,
    start: Cursor<'a>,
) -> Result<(Option<u8>, Cursor<'a>), ReadError<ScenarioFault>>
    ensures { IsRead result (slot_at start.entry) }
{
    let (line, after) = start.next_line(alloc)?;
    match line.fields.as_slice() {
        [word, digits] if *word == b"slot".as_slice() => {
            let slot = number_in(digits, line.number)?;
            if slot > GREATEST_SLOT {
                return Err(LineFault::SlotRange.refused(line.number));
            }
            Ok((Some(slot), after))
        }
        _ => Ok((None, start)),
    }
}

/// Returns the version of a text with or without a slot: 2 with a slot, 1 without.
pub fn version_with(slot: Option<u8>) -> Version
    ensures { result ≡ version_with slot }
{
    match slot {
        None => Version::One,
        Some(slot) => Version::Two { slot },
    }
}
