//! Shows what texts are as names, days, moments, values and truth values, and how values compare.

use hippo_entry_hex::first_word;
use hippo_lexer::TokenKind;
use hippo_lexer::lexer::tokens;
use hippo_values::{
    CompareOp, Duplicate, Memory, Name, Truth, Txt, Value, compare, truth_and, truth_not, truth_or,
};
use hippo_values_text::{day_text, moment_text, print_value, read_day, read_moment};
use std::alloc::{AllocError, Global};

/// The words of the rules of this module.
pub const RULES: [&str; 6] = ["name", "day", "moment", "truth", "compare", "values"];

const OPERATORS: [CompareOp; 6] = [
    CompareOp::Eq,
    CompareOp::Ne,
    CompareOp::Lt,
    CompareOp::Le,
    CompareOp::Gt,
    CompareOp::Ge,
];

// A name as it is stored.
fn name(alloc: Global, text: &str) -> Result<String, AllocError> {
    match Name::from_word(alloc, text) {
        Ok(Some(name)) => String::from_str(alloc, name.as_str()),
        Ok(None) => String::from_str(alloc, "none"),
        Err(fault) => format!(in alloc; "{fault:?}"),
    }
}

// The number of a day, and the day as text.
fn day(alloc: Global, text: &str) -> Result<String, AllocError> {
    let Some(day) = read_day(text) else {
        return String::from_str(alloc, "none");
    };
    let printed = day_text(day);
    format!(in alloc; "{} {}", day.day(), str::from_utf8(&printed).unwrap_or(""))
}

// The second of a moment, and the moment as text.
fn moment(alloc: Global, text: &str) -> Result<String, AllocError> {
    let Some(moment) = read_moment(text) else {
        return String::from_str(alloc, "none");
    };
    let printed = moment_text(moment);
    format!(in alloc;
        "{} {}",
        moment.seconds(),
        str::from_utf8(&printed).unwrap_or("")
    )
}

// The value that a token writes. Any other token is NULL.
fn value_of(alloc: Global, kind: &TokenKind) -> Result<Value, Memory> {
    match kind {
        TokenKind::Number(number) => Ok(Value::Int(*number)),
        TokenKind::Quoted(text) => Ok(Value::Text(text.copy(alloc)?)),
        TokenKind::Day(day) => Ok(Value::Day(*day)),
        _ => Ok(Value::Null),
    }
}

// The values that a text writes.
fn values(alloc: Global, text: &str) -> Result<Vec<Value>, Memory> {
    let mut values = Vec::new(alloc);
    let Ok(tokens) = tokens(alloc, text) else {
        return Ok(values);
    };
    for token in tokens.as_slice() {
        values.push(value_of(alloc, &token.kind)?)?;
    }
    Ok(values)
}

// Values as they are printed.
fn printed(alloc: Global, values: &[Value]) -> Result<Txt, Memory> {
    let mut printed = Txt::new(alloc);
    for value in values {
        print_value(value, &mut printed)?;
        printed.append(";")?;
    }
    Ok(printed)
}

// The truth values of the six comparisons of two values, and their order.
fn comparisons(alloc: Global, left: &Value, right: &Value) -> Result<String, AllocError> {
    let mut shown = String::new(alloc);
    for operator in OPERATORS {
        let truth = compare(operator, left, right);
        shown.push_str(format!(in alloc; "{truth:?} ")?.as_str())?;
    }
    let order = left.cmp(right);
    shown.push_str(format!(in alloc; "{order:?}")?.as_str())?;
    Ok(shown)
}

fn truth_named(word: &str) -> Truth {
    match word {
        "true" => Truth::True,
        "false" => Truth::False,
        _ => Truth::Unknown,
    }
}

// AND, OR and NOT of truth values given by their words.
fn truths(alloc: Global, text: &str) -> Result<String, AllocError> {
    let (left, right) = first_word(text);
    let (left, right) = (truth_named(left), truth_named(right));
    let both = truth_and(left, right);
    let either = truth_or(left, right);
    let neither = truth_not(left);
    format!(in alloc; "{both:?} {either:?} {neither:?}")
}

fn of_values(alloc: Global, rule: &str, text: &str) -> Result<String, AllocError> {
    let Ok(values) = values(alloc, text) else {
        return Err(AllocError);
    };
    match (rule, values.as_slice()) {
        ("compare", [left, right]) => comparisons(alloc, left, right),
        ("values", values) => match printed(alloc, values) {
            Ok(printed) => String::from_str(alloc, printed.as_str()),
            Err(_) => Err(AllocError),
        },
        _ => format!(in alloc; "no rule {rule:?}"),
    }
}

/// Shows what a text is by the rule with this name: a name, a day, a moment, values, their
/// comparisons, or truth values.
pub fn shown_value(alloc: Global, rule: &str, text: &str) -> Result<String, AllocError> {
    match rule {
        "name" => name(alloc, text),
        "day" => day(alloc, text),
        "moment" => moment(alloc, text),
        "truth" => truths(alloc, text),
        _ => of_values(alloc, rule, text),
    }
}
