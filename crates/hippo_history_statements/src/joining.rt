//! Lists with a separator between their members.
ghost use Rattle.std.specs.Prelude.{◌++◌, flat_map};
ghost use Rattle.hippo_values_text.specs.Printing.{AppendsText};
ghost use Rattle.hippo_report.specs.Cells.{separated_text};

use hippo_values::{Memory, RoomyTxt};

/// How a member of a list is spelled.
pub trait Spelling<T, const ROOM: usize> {
    ghost use Rattle.std.specs.Prelude.{ℕ, List};

    /// The text of a member.
    ghost text: { Self → T → List ℕ };

    /// Appends the text of a member.
    fn spell(&self, member: &T, out: &mut RoomyTxt<ROOM>) -> Result<(), Memory>
        ensures adds { AppendsText (text self.now member.now) result out.old out.new };
}

fn append_later<const ROOM: usize, T, S: Spelling<T, ROOM>>(
    spelling: &S,
    separator: &str,
    rest: &[T],
    out: &mut RoomyTxt<ROOM>,
) -> Result<(), Memory>
    ensures adds { AppendsText (flat_map (λ member. separator.now
        ++ S.text spelling.now member) rest.now) result out.old out.new }
{
    for member in rest {
        out.append(separator)?;
        spelling.spell(member, out)?;
    }
    Ok(())
}

/// Appends the members of a list, with a separator between them.
pub fn append_joined<const ROOM: usize, T, S: Spelling<T, ROOM>>(
    spelling: &S,
    separator: &str,
    members: &[T],
    out: &mut RoomyTxt<ROOM>,
) -> Result<(), Memory>
    ensures adds { AppendsText (separated_text (S.text spelling.now) separator.now members.now)
        result out.old out.new }
{
    let Some((first, rest)) = members.split_first() else {
        return Ok(());
    };
    spelling.spell(first, out)?;
    append_later(spelling, separator, rest, out)
}
