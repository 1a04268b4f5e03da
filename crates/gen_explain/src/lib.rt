//! What the lines and the codes mean that the program prints, in sentences.
//!
//! The table has a row for each fault, finding, kind of conviction, verdict and exit status, and for each line of a
//! verdict's text. A row has a name, the form of a line, and a sentence. A capital letter that is a field of the form
//! stands for any field of a line, and each such letter in the sentence stands for the same field. So
//! `N8 from 1 to 2 round 2 order 0` is told by the row of the form `N8 from A to B round L order V`. The field `NAMES`
//! stands for one or more fields at the end of a line. Those of them that are names of rows are told by the sentences of
//! these rows.
//!
//! What is promised: the text, byte for byte. What is not promised: that a sentence is true of what the program does.
#![tactic(auto)]

mod explaining;
mod forms;
mod rows;
mod table;
mod wording;

pub use explaining::explain;
pub use table::WORDS;
pub use wording::with_words;
