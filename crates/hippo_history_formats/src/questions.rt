//! Which acts are questions.
ghost use Rattle.std.specs.Prelude.{◌≡◌, false, MatchOption};
ghost use Rattle.hippo_model.specs.declared.entry.Act.TheVariants.{Asked};
ghost use Rattle.hippo_model.specs.HandedOver.{is_question};

use hippo_model::Act;
use hippo_values::{Name, Txt};

/// A question, and who asks it.
#[derive(Clone, Copy)]
pub struct Question<'a> {
    pub user: &'a Name,
    pub purpose: &'a Name,
    pub recipient: &'a Name,
    pub text: &'a Txt,
}

/// Returns the question in an act, if the act is one.
pub fn question_of<'a>(act: &'a Act) -> Option<Question<'a>>
    ensures { MatchOption result (is_question act.now ≡ false) (λ question. act.now
        ≡ Asked question.user.now question.purpose.now question.recipient.now question.text.now) }
{
    let Act::Asked {
        user,
        purpose,
        recipient,
        text,
    } = act
    else {
        return None;
    };
    Some(Question {
        user,
        purpose,
        recipient,
        text,
    })
}
