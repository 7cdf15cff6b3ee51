//! What the text of bytes never has: a tag, or an end of its attribute.
ghost use Rattle.std.specs.Prelude.{◌≡◌, ℕ, List, true};
ghost use Rattle.std.specs.List.{list_all};
ghost use Rattle.page_text.specs.Escapes.{AreBytes, attribute_text, has_references, is_inside, page_text, read_back};
ghost use Rattle.page_text.specs.Tags.{HasTagsOf};

/// A law: whatever the bytes, their text has no `<`, `>`, `"` or `'`, and nothing but printable bytes and
/// ends of lines; each `&` in it begins a numeric reference of two digits; and the bytes are read off it
/// again, so no two lists of bytes have the same text.
pub fn text_stays_inside()
    ensures inside { (bytes : List ℕ) → AreBytes bytes → list_all is_inside (page_text bytes) ≡ true }
    ensures references { (bytes : List ℕ) → AreBytes bytes → has_references (page_text bytes) ≡ true }
    ensures back { (bytes : List ℕ) → AreBytes bytes → read_back (page_text bytes) ≡ bytes }
    ensures one { (a b : List ℕ) → AreBytes a → AreBytes b → page_text a ≡ page_text b → a ≡ b }
{}

/// A law: the same of the text of an attribute.
pub fn attribute_stays_inside()
    ensures inside { (bytes : List ℕ) → AreBytes bytes → list_all is_inside (attribute_text bytes) ≡ true }
    ensures references { (bytes : List ℕ) → AreBytes bytes → has_references (attribute_text bytes) ≡ true }
    ensures back { (bytes : List ℕ) → AreBytes bytes → read_back (attribute_text bytes) ≡ bytes }
    ensures one { (a b : List ℕ) → AreBytes a → AreBytes b → attribute_text a ≡ attribute_text b → a ≡ b }
{}

/// A law: whatever the bytes, a reader of elements meets no tag in their text, whichever tags it knows.
pub fn text_has_no_tags()
    ensures { (tags : List (List ℕ)) (bytes : List ℕ) → HasTagsOf tags (page_text bytes) }
{}
