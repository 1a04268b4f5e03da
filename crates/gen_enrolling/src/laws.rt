//! Laws of files of roots and admissions. Each is a function with an empty body whose contract is the law: a caller that
//! calls it knows the law.
ghost use Rattle.gen_enrolling.specs.FromFiles.{FilesAreChecked, FilesLead};

/// States that the files of roots that nodes enroll lead to the header of each run of their system. `admission_of_files`
/// makes an admission of them. It holds, and admits that header, and the root of the general that a node is has the keys
/// that the node makes of its secret (`leads`). Of files of other secrets than those of the system's identities it makes none,
/// and for no run that the system does not have (`checked`).
pub fn files_lead_to_headers()
    ensures leads { FilesLead }
    ensures checked { FilesAreChecked }
{}
