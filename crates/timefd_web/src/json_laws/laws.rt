//! Laws that hold for the definitions.

ghost use Rattle.timefd_web.specs.JsonLaws.Logs.{LogsAreJson, LogsAreSarif};
ghost use Rattle.timefd_web.specs.JsonLaws.Meaning.{StringsReadBack};
ghost use Rattle.timefd_web.specs.JsonLaws.Objects.{ObjectsAreJson};
ghost use Rattle.timefd_web.specs.JsonLaws.Results.{ResultsAreJson};

/// A text in quotes is a JSON string that reads back as the text.
pub fn strings_read_back()
    ensures { StringsReadBack }
{}

/// An object for a finding is JSON with exactly its keys, each once, and its texts read back.
pub fn objects_are_json()
    ensures { ObjectsAreJson }
{}

/// So is a SARIF result after its comma.
pub fn results_are_json()
    ensures { ResultsAreJson }
{}

/// So is a SARIF log of any rules and any results.
pub fn logs_are_json()
    ensures { LogsAreJson }
{}

/// A SARIF log of any rules and any results has what SARIF requires of it: its version, and runs with a
/// tool's name and rules, and results with a message, a rule and locations.
pub fn logs_are_sarif()
    ensures { LogsAreSarif }
{}
