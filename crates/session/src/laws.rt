// Theorems about the definitions alone. A call does nothing; what it ensures is the theorem.
ghost use Rattle.session.specs.Laws.{OneAnswer, ExactlyOneAnswer, FieldsAreParts};

// A file has at most one answer: a session, or the fault that comes first.
pub fn at_most_one_answer()
    ensures { OneAnswer }
{}

// Of every list of bytes exactly one answer is right: a session, or the fault that comes first.
#[tactic(auto, using(crate::proofs::OneAnswer::exactly_one))]
pub fn exactly_one_answer()
    ensures { ExactlyOneAnswer }
{}

// The fields of a line are parts of the file at their places, with spaces between them.
pub fn fields_are_parts()
    ensures { FieldsAreParts }
{}
