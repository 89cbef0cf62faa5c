//! What a line can command.
use crate::forms::RequestForm;
use hippo_report::{Refusal, Speaker};
use hippo_stmt_ast::Stmt;
use hippo_values::{Boxed, Moment};

/// What a line commands. Texts are borrowed from the line.
#[derive(Drop)]
pub enum Command<'a> {
    /// The line is empty, has only spaces, or begins with `#`.
    Nothing,
    /// The line is refused, whatever the history.
    Wrong {
        who: Speaker,
        refusal: Refusal,
    },
    /// Set the clock.
    SetClock {
        moment: Moment,
    },
    /// Carry out a request, which a short word makes.
    Request {
        who: Speaker,
        request: RequestForm<'a>,
    },
    /// Carry out a statement, which is part of this text. It is boxed, since it is large and
    /// commands are moved often.
    Statement {
        who: Speaker,
        statement: Boxed<Stmt>,
        text: &'a str,
    },
}
