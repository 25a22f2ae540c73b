//! What holds for the numbers and the objects that the page sees.

ghost use Rattle.timefd_web.specs.Numbers.{Numbers};
ghost use Rattle.timefd_web.specs.ReportValues.{ReportsAreJson};
ghost use Rattle.timefd_web.specs.Values.{ObjectsAreJson};

/// The statuses have the numbers that `web/timefd.mjs` expects.
pub fn numbers()
    ensures { Numbers }
{}

/// Each object about formats of other languages, and about texts whose description is looked for, is JSON
/// with exactly its keys, each once, and its texts read back.
pub fn objects_are_json()
    ensures { ObjectsAreJson }
{}

/// So is each object that reports on a text, and on a text that is read.
pub fn reports_are_json()
    ensures { ReportsAreJson }
{}
