//! Laws of rewritten queries.
ghost use Rattle.hippo_rewrite.specs.RewritingLaws.{RewritingMasks, RowsFitRules, RewritingAnswers, ColumnsShowVerdicts};

/// For any rows that fit the rules, whenever they were born and whatever patients chose, the answer
/// of the rewritten query over these rows is the raw answer of the query over the rows as rules,
/// births and choices mask them.
pub fn rewriting_masks()
    ensures { RewritingMasks }
{}

/// In a valid history the rows of a query's tables fit the rules in force, for any purpose and
/// recipient.
pub fn rows_fit_rules()
    ensures { RowsFitRules }
{}

/// In a valid history, let a query be rewritten by the rules in force and be answered over the rows
/// of that history, with their births and the patients' choices. This answer is the query's raw
/// answer over the views. Made distinct or grouped as the query's form says, it is the query's
/// answer.
pub fn rewriting_answers()
    ensures { RewritingAnswers }
{}

/// In each combination of rows, the expression that `mask_columns` returns for a column under the
/// rules in force has the value of the column's cell as the verdict on it shows or denies it.
pub fn columns_show_verdicts()
    ensures { ColumnsShowVerdicts }
{}
