//! Enrolment of a node: the roots of all its sets of keys, made by several workers, and the public file of them.
//!
//! An identity stands for 2 to the power of its levels sets of keys. To know it, the tree of each set has to be made
//! once, which takes nearly all the time. So workers take the sets one by one, and the roots can be made in pieces: a
//! piece begins at any state of the secret. The file of roots is public. Whoever has it makes the identity and the
//! opening of any set, and hashes no key.
//!
//! What is promised: the roots are those of the definition, whatever the number of workers. Pieces that follow one
//! another are the whole. A file of roots is read exactly, and of a file that was cut the number of its whole roots is
//! told. The identity and the openings of a file are those over its roots.
//!
//! What is not promised: that the roots in a file are those of a secret. What is read says nothing of a secret.
#![tactic(auto)]

mod cut_files;
mod heads;
mod laws;
mod making;
mod root_files;
mod root_reading;
mod roots_fault;
pub mod sizes;
mod taking;

pub use cut_files::roots_in;
pub use heads::RootsHead;
pub use laws::{one_roots_spelling, pieces_of_files_join, pieces_of_secrets_join};
pub use making::{roots_of_next_sets, roots_of_secret, roots_of_sets};
pub use root_files::{Roots, append_roots, write_roots};
pub use root_reading::read_roots;
pub use roots_fault::RootsFault;
