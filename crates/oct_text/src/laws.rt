//! What holds of texts of others.

ghost use Rattle.oct_text.specs.EscapeLaws.{EscapedEndsNothing, EscapedIsInert};

/// A text of others stands in HTML as bytes that end no tag and no attribute: each `&` in it begins one of the five
/// entities, and none of its bytes is `<`, `>`, `"` or `'`.
pub fn escaped_texts_end_nothing()
    ensures inert { EscapedIsInert }
    ensures none { EscapedEndsNothing }
{}
