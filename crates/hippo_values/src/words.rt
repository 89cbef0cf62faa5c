//! Classifies a word: keyword, unsupported word, or name.

ghost use Rattle.std.specs.Prelude.{◌≡◌, true, IfOk};
ghost use Rattle.hippo_values.specs.Names.{is_word};
ghost use Rattle.hippo_values.specs.Words.{word_of};

use crate::keywords::{Keyword, Reserved, reserved_of};
use crate::memory::Memory;
use crate::names::Name;
use crate::texts::Txt;
use std::alloc::Global;

/// A classified word.
#[derive(Debug, Drop)]
pub enum Word {
    Name(Name),
    Keyword(Keyword),
    /// A word of SQL that hippo refuses everywhere, in lower case.
    Unsupported(Txt),
}

/// Classifies a word of any case; none if it would be a name but is too long. The word must be a
/// letter followed by letters, digits and `_`.
#[tactic(auto, unfolding(crate::specs::Words::word_of))]
pub fn read_word(alloc: Global, word: &str) -> Result<Option<Word>, Memory>
    requires { is_word word.now ≡ true }
    ensures { IfOk result (λ said. said ≡ word_of word.now) }
{
    match reserved_of(word) {
        Some(Reserved::Keyword(keyword)) => Ok(Some(Word::Keyword(keyword))),
        Some(Reserved::Unsupported) => {
            let folded = Txt::from_string(word.to_ascii_lowercase(alloc)?);
            Ok(Some(Word::Unsupported(folded)))
        }
        None => Ok(Name::unreserved(word).map(Word::Name)),
    }
}
