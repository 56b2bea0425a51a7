//! What is true of all that is written.
ghost use Rattle.pay_json.specs.Laws.{StringsReadBack, ValuesReadBack};

/// A string is read as the text that it was written of, so no byte of it ends the string; and the text of a value without floats
/// is read as that value, where its numbers are below 2^64 and it nests no deeper than 128.
pub fn reading_back()
    ensures strings { StringsReadBack }
    ensures values { ValuesReadBack }
{}
