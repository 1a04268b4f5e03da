//! Parcels that a node holds for a neighbour or has from it.
ghost use Rattle.std.specs.Prelude.{◌≡◌, option_map, is_some};
ghost use Rattle.gen_node.specs.Held as helds;

use gen_script::Parcel;
use gen_types::GeneralNo;
use std::marker::Model;

/// A neighbour, and the parcels of the frame to it or from it. A contract sees both as one record.
#[derive(Debug, Drop)]
pub struct Held {
    pub(crate) general: GeneralNo,
    pub(crate) parcels: Vec<Parcel>,
}

impl Model for Held {
    ghost use Rattle.gen_node.specs.Held.{Held};

    ghost Value = { Held };

    ghost view = { λ h. record { general = h.general; parcels = h.parcels.items } };
}

impl Held {
    /// Returns the neighbour.
    pub(crate) fn general(&self) -> GeneralNo
        ensures { result ≡ self.now.general }
    {
        self.general
    }
}

/// Returns the first entry for a general in a list of held parcels, if there is one.
pub(crate) fn find_held(rows: &[Held], general: GeneralNo) -> Option<&Held>
    ensures { option_map (λ h. h.now.parcels) result ≡ helds.held_of general rows.now }
{
    let mut rest = rows;
    'rest: while let Some((held, others)) = rest.split_first() {
        if held.general() == general {
            return Some(held);
        }
        rest = others;
    }
    None
}

/// Whether there is an entry for a general in a list of held parcels.
pub(crate) fn is_held(rows: &[Held], general: GeneralNo) -> bool
    ensures { result ≡ is_some (helds.held_of general rows.now) }
{
    find_held(rows, general).is_some()
}

/// Returns the parcels that are held for or from a general; none if there is no entry for it.
pub(crate) fn parcels_of(rows: &[Held], general: GeneralNo) -> &[Parcel]
    ensures { result.now ≡ helds.frame_in general rows.now }
{
    match find_held(rows, general) {
        Some(held) => held.parcels.as_slice(),
        None => &[],
    }
}
