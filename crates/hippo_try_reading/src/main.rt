//! Shows how texts are read, what sources and sinks over std's readers and writers answer
//! (`streams.rt`), and that ample memory suffices for calls at their largest use (`copies.rt`,
//! `products.rt`, `rooms.rt`). Each line of standard input has the word of a rule, a space and a
//! text. For each line, one line is written: what the text is by that rule, why it is nothing, or
//! what comes of it. After the word `long`, the text is given in parts (`long.rt`); the output is
//! then also given in parts, after the number of the text's bytes.
#![tactic(auto)]

mod copies;
mod entries;
mod long;
mod products;
mod rooms;
mod streams;
mod values;

use hippo_audit_reader::read_audit;
use hippo_entry_hex::first_word;
use hippo_lexer::lexer::tokens;
use hippo_lexer::{SyntaxFault, Tokens, check_words};
use hippo_spj_reader::{read_condition, read_select};
use hippo_stmt_reader::read_statement;
use hippo_values::Memory;
use std::alloc::{AllocError, Global};
use std::fmt::Debug;
use std::fs::Files;
use std::io;

/// What is shown, or an error when out of memory.
pub fn or_out_of_memory(shown: Result<String, Memory>) -> Result<String, AllocError> {
    match shown {
        Ok(shown) => Ok(shown),
        Err(Memory) => Err(AllocError),
    }
}

// A reading in its Debug form, or the fault if there is none.
fn shown<T: Debug + Drop>(
    alloc: Global,
    read: Result<T, SyntaxFault>,
) -> Result<String, AllocError> {
    match read {
        Ok(reading) => format!(in alloc; "{reading:?}"),
        Err(fault) => format!(in alloc; "{fault:?}"),
    }
}

// What the tokens are by the rule with this name, once their words are checked.
fn by_rule(alloc: Global, rule: &str, tokens: &Tokens) -> Result<String, AllocError> {
    if let Err(fault) = check_words(tokens) {
        return format!(in alloc; "{fault:?}");
    }
    match rule {
        "statement" => shown(alloc, read_statement(alloc, tokens)),
        "select" => shown(alloc, read_select(alloc, tokens, 0, tokens.len())),
        "condition" => shown(alloc, read_condition(alloc, tokens, 0, tokens.len())),
        "audit" => shown(alloc, read_audit(alloc, tokens, 0, tokens.len())),
        _ => format!(in alloc; "no rule {rule:?}"),
    }
}

// What the tokens of a text are by a rule: the Debug form of a reading, or of the fault.
fn token_reading(alloc: Global, rule: &str, text: &str) -> Result<String, AllocError> {
    match tokens(alloc, text) {
        Ok(tokens) if rule == "tokens" => format!(in alloc; "{tokens:?}"),
        Ok(tokens) => by_rule(alloc, rule, &tokens),
        Err(fault) => format!(in alloc; "{fault:?}"),
    }
}

// What a text is by a rule, or what comes of it.
fn reading(alloc: Global, rule: &str, text: &str) -> Result<String, AllocError> {
    match rule {
        "entry" => entries::shown_entry(alloc, text),
        "lines" => streams::lines(alloc, text),
        "written" => streams::written(alloc, text),
        "copied" => copies::shown_copy(alloc, text),
        "product" => products::product(alloc, text),
        "room" => rooms::filled_twice(alloc, text),
        "record" => rooms::shown_record(alloc, text),
        rule if values::RULES.contains(&rule) => values::shown_value(alloc, rule, text),
        rule => token_reading(alloc, rule, text),
    }
}

// The reading of a text that is given in parts: the number of its bytes, and then the reading in
// short form.
fn long_reading(alloc: Global, rule: &str, row: &str) -> Result<String, AllocError> {
    let (text, counted) = long::long_text(alloc, row)?;
    let reading = reading(alloc, rule, text.as_str())?;
    let reading = long::short_reading(alloc, reading.as_str(), counted)?;
    format!(in alloc; "{} bytes: {reading}", text.len())
}

fn line_reading<R: Files>(files: &R, alloc: Global, line: &str) -> io::Result<String> {
    let (word, rest) = first_word(line);
    match word {
        "file" => streams::file_lines(files, alloc, rest),
        "long" => {
            let (rule, row) = first_word(rest);
            Ok(long_reading(alloc, rule, row)?)
        }
        rule => Ok(reading(alloc, rule, rest)?),
    }
}

fn main(rt: HostRuntime) -> io::Result<()> {
    for line in rt.lines(rt.alloc()) {
        let reading = line_reading(&rt, rt.alloc(), line?.as_str())?;
        println!(rt; "{reading}")?;
    }
    Ok(())
}
