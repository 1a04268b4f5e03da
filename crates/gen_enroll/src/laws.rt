//! Laws of roots and of files of roots.
ghost use Rattle.gen_types.specs.Spelled.{HasOneSpelling};
ghost use Rattle.gen_enroll.specs.RootFiles.{IsRootFile, file_spelling};
ghost use Rattle.gen_enroll.specs.Pieces.{FilesJoin, SecretsJoin};

/// States that the roots of m + n sets of a secret are those of its first m sets, followed by those of the n sets from
/// the state on that stands m steps behind the secret. So pieces that follow one another are the whole.
pub fn pieces_of_secrets_join()
    ensures { SecretsJoin }
{}

/// States that the bytes of a file of roots are those of its head, followed by those of its roots piece by piece,
/// however they are cut into pieces.
pub fn pieces_of_files_join()
    ensures { FilesJoin }
{}

/// States that each file of roots has one spelling, and that none is the beginning of another one.
pub fn one_roots_spelling()
    ensures { HasOneSpelling IsRootFile file_spelling }
{}
