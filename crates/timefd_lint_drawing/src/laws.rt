//! Laws that hold for the definitions.

ghost use Rattle.timefd_lint_drawing.specs.Github.{AnnotationStaysWhole};
ghost use Rattle.timefd_lint_drawing.specs.Json.{NoneIsHiddenInJson};
ghost use Rattle.timefd_lint_drawing.specs.Shown.{NoneIsHidden};

/// No character of a safe text is hidden.
pub fn none_is_hidden()
    ensures { NoneIsHidden }
{}

/// No character of a text in JSON quotes is hidden.
pub fn none_is_hidden_in_json()
    ensures { NoneIsHiddenInJson }
{}

/// No byte of a message or a property of an annotation ends it.
pub fn annotation_stays_whole()
    ensures { AnnotationStaysWhole }
{}
