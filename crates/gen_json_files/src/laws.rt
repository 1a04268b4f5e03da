//! Laws of what is shown as JSON.
ghost use Rattle.gen_json_files.specs.ShowingLines.{ShownAreLines};

/// What is shown of a file as JSON is the lines of some values, none of which has a float.
#[tactic(auto, using(crate::proofs::ShownLines::shown_are_lines))]
pub fn shown_are_lines()
    ensures { ShownAreLines }
{}
