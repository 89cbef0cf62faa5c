//! Texts between the tags of a page.
ghost use Rattle.std.specs.Prelude.{◌≡◌, ◌++◌, OnOk};
ghost use Rattle.std.specs.Char.{encode_utf8};
ghost use Rattle.hippo_history_page.specs.Escapes.{escaped};

use hippo_values::{Memory, Txt};

// Appends a character, or the reference that stands for it.
fn append_character(character: char, out: &mut Txt) -> Result<(), Memory>
    ensures { OnOk result (out.new ≡ out.old ++ escaped (encode_utf8 character)) }
{
    match character {
        '&' => out.append("&amp;"),
        '<' => out.append("&lt;"),
        '>' => out.append("&gt;"),
        '"' => out.append("&quot;"),
        '\'' => out.append("&#39;"),
        other => out.push(other),
    }
}

/// Appends a text with references in place of `&`, `<`, `>` and quotes.
pub(crate) fn append_escaped(text: &str, out: &mut Txt) -> Result<(), Memory>
    ensures { OnOk result (out.new ≡ out.old ++ escaped text.now) }
{
    for character in text.chars() {
        append_character(character, out)?;
    }
    Ok(())
}
