//! The short words, which say what form a line has.
ghost use Rattle.std.specs.Prelude.{◌≡◌, bytes_eq};
ghost use Rattle.std.specs.Map.{lookup};
ghost use Rattle.hippo_values.specs.Names.{lower_case};
ghost use Rattle.hippo_stmt_lines.specs.Forms.{short_word_of};

/// A word after a session's number that says what form the line has. The case of its letters does
/// not matter.
#[derive(Clone, Copy, PartialEq, Eq)]
pub enum ShortWord {
    Login,
    Logout,
    Fetch,
    Close,
    Step,
    Drop,
    Unwatch,
    Load,
}

const SHORT_WORDS: [(&str, ShortWord); 8] = [
    ("login", ShortWord::Login),
    ("logout", ShortWord::Logout),
    ("fetch", ShortWord::Fetch),
    ("close", ShortWord::Close),
    ("step", ShortWord::Step),
    ("drop", ShortWord::Drop),
    ("unwatch", ShortWord::Unwatch),
    ("load", ShortWord::Load),
];

/// Whether a word is the known one, ignoring case.
pub(crate) fn equals_folded(known: &str, word: &str) -> bool
    ensures { result ≡ bytes_eq (lower_case known.now) (lower_case word.now) }
{
    known.eq_ignore_ascii_case(word)
}

// What a table of words says of a word, ignoring case.
fn find_word(table: &[(&str, ShortWord)], word: &str) -> Option<ShortWord>
    ensures { result ≡ lookup (λ known. bytes_eq (lower_case known.now) (lower_case word.now))
        table.now }
{
    for (known, short) in table {
        if equals_folded(known, word) {
            return Some(*short);
        }
    }
    None
}

/// The short word that a word is, ignoring case, or none.
pub fn short_word_of(word: &str) -> Option<ShortWord>
    ensures { result ≡ short_word_of word.now }
{
    find_word(&SHORT_WORDS, word)
}
