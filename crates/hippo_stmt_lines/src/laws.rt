//! Laws on the reading of lines. Each law is the contract of a function that does nothing.
ghost use Rattle.hippo_stmt_lines.specs.CommandLaws.{StatementsAreRead, MomentsAreRead};

/// A text is read as the statement that it is by the grammar, and as no other statement.
pub fn statements_are_read()
    ensures { StatementsAreRead }
{}

/// A text is read as the moment that it writes, and as no other moment.
pub fn moments_are_read()
    ensures { MomentsAreRead }
{}
