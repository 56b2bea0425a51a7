//! What is true of escaped text.
ghost use Rattle.pay_html.specs.Laws.{NoMarkup, AmpersandsBeginEntities, OneTextEach};

/// No byte of an escaped text is `<`, `>`, `"` or `'`, so it can neither begin a tag nor end an attribute; each `&` of it
/// begins one of the five entities; and no two texts have the same escaped text.
pub fn escapes()
    ensures no_markup { NoMarkup }
    ensures entities { AmpersandsBeginEntities }
    ensures one_text_each { OneTextEach }
{}
