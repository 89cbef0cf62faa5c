//! The drill: the lines of a script, one after another.
ghost use Rattle.std.specs.Prelude.{◌≡◌};
ghost use Rattle.hippo_drill.specs.Script.{script};
ghost use Rattle.hippo_drill.specs.Scripting.{HandsOutLine};

use crate::places::line_at;
use hippo_values::{Memory, Txt};
use std::alloc::Global;
use std::marker::Model;

/// The lines of a script that remain.
///
/// A script of a given size has half as many patients. It sets up a clinic, inserts the patients
/// and their visits, has every tenth patient opt out of showing the phone, and logs a nurse in.
/// Then it changes each patient's phone, and after each change the nurse asks for the patients of a
/// zip. At the end, an audit asks who saw the phones of a zip. The script's number shifts the zips.
#[derive(Drop)]
pub struct Drill {
    size: u64,
    number: u64,
    place: u128,
}

impl Model for Drill {
    ghost use Rattle.std.specs.Prelude.{List, drop};
    ghost use Rattle.hippo_values.specs.Texts.{Txt};
    ghost use Rattle.hippo_drill.specs.Script.{script};

    ghost Value = { List Txt };

    ghost view = { λ drill. drop drill.place (script drill.size drill.number) };
}

impl Drill {
    /// All lines of the script with this size and this number.
    pub fn new(size: u64, number: u64) -> Drill
        ensures { result ≡ script size number }
    {
        Drill {
            size,
            number,
            place: 0,
        }
    }

    /// Appends the next line to `out`, without a line feed, and returns true. Returns false exactly
    /// when no line remains. When out of memory, nothing changes.
    pub fn next_line(&mut self, alloc: Global, out: &mut Txt) -> Result<bool, Memory>
        ensures hands_out { HandsOutLine result self.old self.new out.old out.new }
    {
        let Some(line) = line_at(self.size / 2, self.place) else {
            return Ok(false);
        };
        let text = line.text(alloc, self.number)?;
        out.append(text.as_str())?;
        self.place += 1;
        Ok(true)
    }
}
