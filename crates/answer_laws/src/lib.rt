//! What every answer keeps, as a law over the definitions: why a path may be refused, and what its body is.
#![tactic(auto)]

ghost use Rattle.answer_laws.specs.Laws.{AnswersOfPaths};

/// A path is refused neither for a head, for settings, for a range nor for a cut body, where no range of bytes is asked for. Else its
/// body is that of some leaf, with the kind and the length of that leaf, and without a length its bytes are whole packets of 188
/// bytes.
pub fn answers_of_paths()
    ensures { AnswersOfPaths }
{}
