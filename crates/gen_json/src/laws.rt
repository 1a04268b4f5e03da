//! Laws about lines of JSON.
ghost use Rattle.gen_json.specs.Line.{OneValueOfLine};
ghost use Rattle.gen_json.specs.LineLists.{OneListOfTexts, OneListOfValues};

/// States that a line is of one value. So two lines that are equal are of equal values.
///
/// A law: a function with an empty body, whose caller knows what it ensures.
pub fn one_value_of_line()
    ensures { OneValueOfLine }
{}

/// Two lists of values without floats whose lines are one text have the same texts, one by one. So no line feed stands
/// within such a text, and equal answers have the same objects.
#[tactic(auto, using(crate::proofs::OneList::one_list_of_texts))]
pub fn one_list_of_texts()
    ensures { OneListOfTexts }
{}

/// Two lists of values whose lines are one text are the same if their numbers are whole and below 2^64.
#[tactic(auto, using(crate::proofs::OneList::one_list_of_values))]
pub fn one_list_of_values()
    ensures { OneListOfValues }
{}
