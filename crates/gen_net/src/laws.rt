//! Laws of headers. Each is a function with an empty body whose contract is the law: a caller that calls it
//! knows the law.
ghost use Rattle.gen_types.specs.Spelled.{HasOneSpelling};
ghost use Rattle.gen_net.specs.declared.marks.Marks.{Marks};
ghost use Rattle.gen_net.specs.Front.{AreMarks, front_spelling};
ghost use Rattle.gen_net.specs.Header.{IsHeader, header_spelling};

/// Each header has one spelling, and no spelling of a header is the beginning of another. If two equal byte strings
/// begin with spellings of headers, the headers are equal, and so is what follows.
pub fn one_header_spelling()
    ensures { HasOneSpelling IsHeader header_spelling }
{}

/// Each front, which is a mark and a header, has one spelling, if the two marks of the format are not the same. No
/// spelling of a front is the beginning of another then.
pub fn one_front_spelling()
    ensures { (marks : Marks) → AreMarks marks → HasOneSpelling IsHeader (front_spelling marks) }
{}
