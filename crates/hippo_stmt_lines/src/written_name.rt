//! Names as they are written in a line.
ghost use Rattle.std.specs.Prelude.{◌≡◌, IfOk};
ghost use Rattle.hippo_values.specs.Names.{name_of};

use hippo_values::{Memory, Name, is_name};
use std::alloc::Global;
use std::marker::Model;

/// A word of a line that is a name: a letter, then letters, digits and `_`, at most 63 bytes, and
/// not reserved.
#[derive(Drop)]
pub struct WrittenName<'a> {
    word: &'a str,
}

impl<'a> Model for WrittenName<'a> {
    ghost use Rattle.std.specs.Prelude.{List, ℕ, IsTrue};
    ghost use Rattle.hippo_values.specs.Names.{lower_case, is_name};

    ghost Value = { List ℕ };

    ghost view = { λ name. lower_case name.word.now };

    ghost invariant = { λ name. IsTrue (is_name name.word.now) };
}

impl<'a> WrittenName<'a> {
    /// The word as a name, or none if it is not one.
    pub(crate) fn from_word(word: &'a str) -> Option<WrittenName<'a>>
        ensures { result ≡ name_of word.now }
    {
        if is_name(word) {
            Some(WrittenName { word })
        } else {
            None
        }
    }

    /// The name, in lower case, or out of memory.
    pub fn name(&self, alloc: Global) -> Result<Name, Memory>
        ensures { IfOk result (λ name. name ≡ self.now) }
    {
        match Name::from_word(alloc, self.word)? {
            Some(name) => Ok(name),
            None => unreachable!(),
        }
    }
}
