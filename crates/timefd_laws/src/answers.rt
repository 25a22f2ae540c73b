//! The language, the limit and the text determine one answer.

ghost use Rattle.timefd_laws.specs.Answers.{OneAnswerInEach};

/// In each language, with each limit, a text either spells a list or has a fault, never both, and
/// there is only one such list or fault.
pub fn each_language_gives_each_text_one_answer()
    ensures { OneAnswerInEach }
{}
