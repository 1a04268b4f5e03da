//! Exhibits: bytes that are shown as a general's log.
ghost use Rattle.std.specs.Prelude.{◌≡◌, ◌≤◌, IfOk, length, slice_range};
ghost use Rattle.std.specs.Arc.{arc_slice_items};

use gen_log::SealedLog;
use gen_types::GeneralNo;
use std::alloc::{AllocError, Global};
use std::marker::Model;
use std::sync::ArcSlice;

/// A general, and bytes that are said to be that general's log of a run. The bytes may come from anybody. Shared
/// exhibits have the same bytes in memory, and so have exhibits that were read from one input. A contract sees the
/// general and the list of bytes.
#[derive(Debug, Drop)]
pub struct Exhibit {
    general: GeneralNo,
    input: ArcSlice<u8>,
    from: usize,
    to: usize,
}

impl Model for Exhibit {
    ghost use Rattle.std.specs.Prelude.{◌≤◌, length, slice_range};
    ghost use Rattle.std.specs.Arc.{arc_slice_items};
    ghost use Rattle.gen_log.specs.Writing.{LogBytes};

    ghost Value = { LogBytes };

    ghost view = { λ x. record {
      general = x.general;
      bytes = slice_range (arc_slice_items x.input) x.from x.to;
    } };

    ghost invariant = { λ x. (x.from ≤ x.to) × (x.to ≤ length (arc_slice_items x.input)) };
}

impl Exhibit {
    /// Returns the exhibit of a general and of the bytes that are said to be its log. The bytes are not copied.
    ///
    /// # Errors
    ///
    /// `AllocError` where memory is refused.
    pub fn new(general: GeneralNo, log: Vec<u8>) -> Result<Exhibit, AllocError>
        ensures { IfOk result (λ exhibit. exhibit ≡ record { general = general; bytes = log.items }) }
    {
        Ok(Exhibit::whole(general, ArcSlice::from_vec(log)?))
    }

    /// Returns the exhibit of a general and of all bytes of an input.
    fn whole(general: GeneralNo, input: ArcSlice<u8>) -> Exhibit
        ensures { result ≡ record { general = general; bytes = arc_slice_items input } }
    {
        let to = input.len();
        Exhibit {
            general,
            input,
            from: 0,
            to,
        }
    }

    /// Returns a sealed log as the exhibit of its general. The bytes are not copied; logs that share them go on to
    /// share them.
    ///
    /// # Errors
    ///
    /// `AllocError` where memory is refused.
    pub fn of_log(log: SealedLog) -> Result<Exhibit, AllocError>
        ensures { IfOk result (λ exhibit. exhibit ≡ log) }
    {
        Ok(Exhibit::whole(log.general(), log.into_bytes()?))
    }

    /// Returns the exhibit of a general and of the bytes of an input from index `from` up to and without index `to`.
    /// They are said to be the general's log. They are shared with the input.
    ///
    /// # Errors
    ///
    /// `AllocError` where the input has too many owners, 2^63 or more.
    pub fn within(
        general: GeneralNo,
        input: &ArcSlice<u8>,
        from: usize,
        to: usize,
    ) -> Result<Exhibit, AllocError>
        requires order { from ≤ to }
        requires end { to ≤ length (arc_slice_items input.now) }
        ensures { IfOk result (λ exhibit. exhibit ≡ record {
          general = general;
          bytes = slice_range (arc_slice_items input.now) from to;
        }) }
    {
        Ok(Exhibit {
            general,
            input: input.clone()?,
            from,
            to,
        })
    }

    /// Returns this exhibit for one more owner. Its bytes are not copied.
    ///
    /// # Errors
    ///
    /// `AllocError` where there are too many owners, 2^63 or more.
    pub fn share(&self) -> Result<Exhibit, AllocError>
        ensures { IfOk result (λ exhibit. exhibit ≡ self.now) }
    {
        Exhibit::within(self.general, &self.input, self.from, self.to)
    }

    /// Returns the general.
    pub fn general(&self) -> GeneralNo
        ensures { result ≡ self.now.general }
    {
        self.general
    }

    /// Returns the bytes.
    pub fn log(&self) -> &[u8]
        ensures { result.now ≡ self.now.bytes }
    {
        &self.input.as_slice()[self.from..self.to]
    }
}

/// Returns sealed logs as exhibits, each of its own general, in their order. The bytes are not copied.
///
/// # Errors
///
/// `AllocError` where memory is refused.
pub fn exhibits_of_logs(alloc: Global, logs: Vec<SealedLog>) -> Result<Vec<Exhibit>, AllocError>
    ensures { IfOk result (λ exhibits. exhibits.items ≡ logs.items) }
{
    let mut exhibits = Vec::with_capacity(alloc, logs.len())?;
    for log in logs {
        exhibits.push_reserved(Exhibit::of_log(log)?);
    }
    Ok(exhibits)
}
