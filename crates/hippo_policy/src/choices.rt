//! The choices of patients as of an entry number.
ghost use Rattle.std.specs.Prelude.{◌≡◌, ℤ, take};
ghost use Rattle.hippo_values.specs.declared.names.Name.{Name as NameValue};
ghost use Rattle.hippo_model.specs.Terms.{History};
ghost use Rattle.hippo_model.specs.Rules.{choice_at};
ghost use Rattle.hippo_policy.specs.Books.{BookRepresents, choice_kept};

use crate::book::PolicyBook;
use hippo_model::ChoiceView;
use hippo_values::Name;

/// The choices of patients among the first n entries.
#[derive(Drop)]
pub struct ChoicesAt<'a> {
    book: &'a PolicyBook,
    n: u64,
}

impl<'a> ChoiceView for ChoicesAt<'a> {
    ghost choices = { λ view. choice_kept view.book.now view.n };

    fn choice(&self, subject: i64, item: &Name) -> Option<bool> {
        self.book.choice_of(self.n, &subject, item)
    }
}

impl PolicyBook {
    /// The choices of patients among the first `n` entries. Takes no memory.
    pub fn choices_at(&self, n: u64) -> ChoicesAt<'_>
        ensures { (history : History) → BookRepresents self.now history
            → (subject : ℤ) (item : NameValue)
            → ⟦<ChoicesAt<'static> as ChoiceView>⟧.choices result subject item
            ≡ choice_at (take n history) subject item }
    {
        ChoicesAt { book: self, n }
    }
}
