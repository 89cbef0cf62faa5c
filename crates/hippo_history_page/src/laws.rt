//! A law about texts in a page, written as the contract of a function that does nothing.
ghost use Rattle.std.specs.Prelude.{ℕ, List};
ghost use Rattle.hippo_history_page.specs.Escapes.{IsReadBack};

/// What a page writes between two of its tags is read as the text that it was given, and has no
/// byte that could begin or end a tag or an attribute. So no name and no value can write markup.
pub fn reads_back()
    ensures { (text : List ℕ) → IsReadBack text }
{}
