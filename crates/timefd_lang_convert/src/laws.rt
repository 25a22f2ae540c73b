//! Laws about converted texts. Each law is the contract of a function with an empty body.

ghost use Rattle.timefd_lang_convert.specs.Laws.{Flattening};

/// Version 3 reads the printed text of a strftime text with the same items, once compounds are taken
/// apart and neighbouring literals are joined. So each letter of strftime has components that mean
/// exactly the same.
pub fn flattening()
    ensures { Flattening }
{}
