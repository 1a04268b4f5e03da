//! What is asked of an input.

use gen_asked::Job;

/// The admission of whose runs an input must be.
#[derive(Clone, Copy)]
pub(crate) struct Admission<'a> {
    /// Its bytes.
    pub(crate) bytes: &'a [u8],
    /// The id of the system that it must be of, if one is named.
    pub(crate) system: Option<&'a [u8; 32]>,
}

/// What is asked of an input.
#[derive(Clone, Copy)]
pub(crate) struct Asking<'a> {
    /// The job.
    pub(crate) job: &'a Job,
    /// The admission, if one is named.
    pub(crate) admission: Option<Admission<'a>>,
    /// Whether the ids of the runs are printed.
    pub(crate) prints_runs: bool,
    /// Whether the input is one of several.
    pub(crate) is_of_several: bool,
}
