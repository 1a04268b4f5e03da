//! What a caller in another language asks for.
ghost use Rattle.std.specs.Prelude.{◌≡◌};
ghost use Rattle.gen_asked.specs.Ranges.{IsInRange};
ghost use Rattle.sm_embed.specs.Options.{job_about, job_of, sought_in, system_in, wanted_in};

use gen_asked::{Asked, AskedRuns, Faulty, Form, Job};
use gen_audit::WorkerCount;
use gen_types::GeneralNo;

/// What a caller asks for beside the job. Each call that takes options refuses those that are no options, whether it
/// uses them or not.
#[repr(C)]
pub struct SmOptions<'a> {
    /// The ids of the runs that the input must be of, in their order: at most four, and none for any runs.
    pub runs: &'a [[u8; 32]],
    /// Whether `explained` and equal roots count as a no: not if it is 0.
    pub strict: u32,
    /// The form of the answer: 0 for text, 1 for JSON.
    pub form: u32,
    /// Whether a general is accused by receipts, and not by a bundle or a campaign: not if it is 0.
    pub receipts: u32,
    /// The bytes of an admission, of whose set the runs of the input must be; none if there are no runs to be asked for so.
    /// They stand in the place of the ids of runs.
    pub admission: &'a [u8],
    /// The id of the system that the admission must be of; no bytes for any system.
    pub system: &'a [u8],
}

/// What options ask for.
#[derive(Clone, Copy)]
pub struct Wanted {
    /// The runs that the input must be of.
    pub runs: AskedRuns,
    /// Whether `explained` and equal roots count as a no.
    pub strict: bool,
    /// The form of the answer.
    pub form: Form,
    /// Whether a general is accused by receipts, and not by a bundle or a campaign.
    pub receipts: bool,
    /// The system that the admission must be of, if there is one, and one is asked for.
    pub system: Option<[u8; 32]>,
}

/// A task that takes options. Each uses those that its job has.
#[derive(Clone, Copy)]
pub enum Task {
    /// The verdict on a bundle or a campaign.
    Audit,
    /// Its picture.
    Draw,
    /// Whether evidence holds.
    Evidence,
    /// Which orders receipts show.
    Receipts,
    /// What the generals of a scenario decide.
    Decide,
    /// What a file is.
    Show,
}

/// A task that takes the number of a general, and options.
#[derive(Clone, Copy)]
pub enum GeneralTask {
    /// The evidence against the general.
    Accuse,
    /// The receipt of the general's log.
    Receipt,
}

/// Returns the id of a system that bytes are: none for no bytes. None for other than 32 bytes.
pub(crate) fn system_in(bytes: &[u8]) -> Option<Option<[u8; 32]>>
    ensures { result ≡ system_in bytes.now }
{
    if bytes.is_empty() {
        return Some(None);
    }
    match <[u8; 32]>::try_from(bytes) {
        Ok(id) => Some(Some(id)),
        Err(_) => None,
    }
}

/// Returns the system that the admission of options must be of, if there is one, and one is asked for. None if ids of runs
/// stand beside an admission, if a system stands there without one, and if it is no id.
fn sought_in(options: &SmOptions) -> Option<Option<[u8; 32]>>
    ensures { result ≡ sought_in options.now }
{
    if !options.admission.is_empty() {
        if options.runs.is_empty() {
            system_in(options.system)
        } else {
            None
        }
    } else if options.system.is_empty() {
        Some(None)
    } else {
        None
    }
}

/// Returns what options ask for; None for more than four runs, for a form that is none, and for a system or an admission
/// that may not stand there.
pub(crate) fn wanted_in(options: &SmOptions) -> Option<Wanted>
    ensures { result ≡ wanted_in options.now }
{
    let runs = match options.runs {
        [] => AskedRuns::Any,
        [a] => AskedRuns::One([*a]),
        [a, b] => AskedRuns::Two([*a, *b]),
        [a, b, c] => AskedRuns::Three([*a, *b, *c]),
        [a, b, c, d] => AskedRuns::Four([*a, *b, *c, *d]),
        _ => return None,
    };
    let form = match options.form {
        0 => Form::Text,
        1 => Form::Json,
        _ => return None,
    };
    let system = sought_in(options)?;
    Some(Wanted {
        runs,
        strict: options.strict != 0,
        form,
        receipts: options.receipts != 0,
        system,
    })
}

/// Returns the job of a task. It is done by one worker, of any generals that the input lists as faulty.
pub(crate) fn job_of(task: Task, wanted: Wanted) -> Job
    ensures same { result ≡ job_of task wanted }
    ensures range { IsInRange result }
{
    let Wanted {
        runs,
        strict,
        form,
        receipts: _,
        system: _,
    } = wanted;
    let workers = WorkerCount::one();
    let asked = Asked {
        runs,
        faulty: Faulty::Listed,
    };
    match task {
        Task::Audit => Job::Audit {
            workers,
            asked,
            strict,
            form,
        },
        Task::Draw => Job::Draw { workers, asked },
        Task::Evidence => Job::Evidence { asked: runs, form },
        Task::Receipts => Job::Receipts { asked: runs, form },
        Task::Decide => Job::Decide { form },
        Task::Show => Job::Show { asked: runs, form },
    }
}

/// Returns the job of a task about a general. It accuses by receipts, if that is asked for, and else by a bundle or a
/// campaign.
pub(crate) fn job_about(task: GeneralTask, general: GeneralNo, wanted: Wanted) -> Job
    ensures same { result ≡ job_about task general wanted }
    ensures range { IsInRange result }
{
    let asked = wanted.runs;
    match task {
        GeneralTask::Accuse => {
            if wanted.receipts {
                Job::AccuseReceipts { general, asked }
            } else {
                Job::Accuse { general, asked }
            }
        }
        GeneralTask::Receipt => Job::Receipt { general, asked },
    }
}
