//! Laws about the tokens of sources: each is the contract of a function with an empty body.

ghost use Rattle.timefd_lint_scan.specs.Grammar.{ReadAsLiterals};

/// What is read as a string literal is one by Rust's grammar.
pub fn read_as_literals()
    ensures { ReadAsLiterals }
{}
