//! The words of a text, separated by spaces.
ghost use Rattle.std.specs.Prelude.{◌≡◌, [], ◌∷◌, option_map, option_copied, MatchOption};
ghost use Rattle.std.specs.List.{list_all, prefix_len};
ghost use Rattle.hippo_values.specs.Texts.{is_space};
ghost use Rattle.hippo_stmt_lines.specs.Words.{words_of, split_at_space, trimmed_text, only, two, three};

fn spaces_len(bytes: &[u8]) -> usize
    ensures { result ≡ prefix_len is_space bytes.now }
{
    bytes.iter().take_while(|byte| **byte == b' ').count()
}

/// Whether a text has no bytes other than spaces.
pub fn is_blank(text: &str) -> bool
    ensures { result ≡ list_all is_space text.now }
{
    text.as_bytes().iter().all(|byte| *byte == b' ')
}

/// The text without its leading spaces.
pub fn trimmed(text: &str) -> &str
    ensures { result.now ≡ trimmed_text text.now }
{
    &text[spaces_len(text.as_bytes())..]
}

/// The parts of a text before and after its first space, or none if it has no space.
pub fn split_at_space(text: &str) -> Option<(&str, &str)>
    ensures { option_map (λ parts. (parts.0.now, parts.1.now)) result ≡ split_at_space text.now }
{
    text.split_once(' ')
}

/// The first word of a text, and the text after it, or none if the text has no word.
pub fn first_word(text: &str) -> Option<(&str, &str)>
    ensures { MatchOption result (words_of text.now ≡ [])
        (λ parts. words_of text.now ≡ parts.0.now ∷ words_of parts.1.now) }
{
    let rest = trimmed(text);
    if rest.is_empty() {
        return None;
    }
    match split_at_space(rest) {
        Some(parts) => Some(parts),
        None => Some((rest, "")),
    }
}

/// The word of a text that has exactly one word, or none.
pub fn only_word(text: &str) -> Option<&str>
    ensures { option_copied result ≡ only (words_of text.now) }
{
    let (word, rest) = first_word(text)?;
    match first_word(rest) {
        None => Some(word),
        Some(_) => None,
    }
}

/// The words of a text that has exactly two words, or none.
pub fn two_words(text: &str) -> Option<(&str, &str)>
    ensures { option_map (λ words. (words.0.now, words.1.now)) result ≡ two (words_of text.now) }
{
    let (first, rest) = first_word(text)?;
    let second = only_word(rest)?;
    Some((first, second))
}

/// The words of a text that has exactly three words, or none.
pub fn three_words(text: &str) -> Option<(&str, &str, &str)>
    ensures { option_map (λ words. (words.0.now, words.1.now, words.2.now)) result
        ≡ three (words_of text.now) }
{
    let (first, rest) = first_word(text)?;
    let (second, third) = two_words(rest)?;
    Some((first, second, third))
}
