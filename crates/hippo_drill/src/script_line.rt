//! The text of a line of the script.
ghost use Rattle.std.specs.Prelude.{◌≡◌, ◌+◌, ◌*◌, ◌<◌, IfOk, string_bytes};
ghost use Rattle.hippo_drill.specs.Script.{zip_of, patient_line, visit_line, choice_line, phone_line, question_line, audit_line};
ghost use Rattle.hippo_drill.specs.Kinds.{script_text};

use std::alloc::{AllocError, Global};

/// A line of the script. Within a kind, a line is given by the number of its patient.
#[derive(Clone, Copy, PartialEq, Eq)]
pub(crate) enum ScriptLine {
    /// A line that is the same in every script.
    Same(&'static str),
    Patient(u64),
    Visit(u64),
    Choice(u64),
    Phone(u64),
    Question(u64),
    Audit,
}

// The last two digits.
fn zip_of(number: u128) -> u128
    ensures { result ≡ zip_of number }
{
    number % 100
}

fn patient_line(alloc: Global, i: u64, number: u64) -> Result<String, AllocError>
    ensures { IfOk result (λ text. string_bytes text ≡ patient_line number i) }
{
    let zip = zip_of(7 * u128::from(i) + u128::from(number));
    format!(in alloc; "0 INSERT INTO patient VALUES ({i}, 'p{i}', 't{i}', {zip})")
}

fn visit_line(alloc: Global, i: u64) -> Result<String, AllocError>
    ensures { IfOk result (λ text. string_bytes text ≡ visit_line i) }
{
    let ward = i % 5;
    format!(in alloc; "0 INSERT INTO visit VALUES ({i}, {i}, 'w{ward}')")
}

fn choice_line(alloc: Global, i: u64) -> Result<String, AllocError>
    ensures { IfOk result (λ text. string_bytes text ≡ choice_line i) }
{
    format!(in alloc; "0 CHOICE {i} ON contact IS NO")
}

fn phone_line(alloc: Global, j: u64) -> Result<String, AllocError>
    ensures { IfOk result (λ text. string_bytes text ≡ phone_line j) }
{
    format!(in alloc; "0 UPDATE patient SET phone = 'u{j}' WHERE pid = {j}")
}

fn question_line(alloc: Global, j: u64, number: u64) -> Result<String, AllocError>
    ensures { IfOk result (λ text. string_bytes text ≡ question_line number j) }
{
    let zip = zip_of(13 * u128::from(j) + u128::from(number));
    format!(in alloc;
        "1 SELECT name, phone, ward FROM patient, visit WHERE patient.pid = visit.pid AND zip = {zip}"
    )
}

fn audit_line(alloc: Global, number: u64) -> Result<String, AllocError>
    ensures { IfOk result (λ text. string_bytes text ≡ audit_line number) }
{
    let zip = zip_of(u128::from(number));
    format!(in alloc;
        "0 DURING '2024-01-01T00:00:00Z' TO '2024-01-01T00:00:00Z' AUDIT phone FROM patient WHERE zip = {zip}"
    )
}

impl ScriptLine {
    /// The line's text in the script with this number.
    pub(crate) fn text(self, alloc: Global, number: u64) -> Result<String, AllocError>
        ensures { IfOk result (λ text. string_bytes text ≡ script_text number self) }
    {
        match self {
            ScriptLine::Same(text) => String::from_str(alloc, text),
            ScriptLine::Patient(i) => patient_line(alloc, i, number),
            ScriptLine::Visit(i) => visit_line(alloc, i),
            ScriptLine::Choice(i) => choice_line(alloc, i),
            ScriptLine::Phone(j) => phone_line(alloc, j),
            ScriptLine::Question(j) => question_line(alloc, j, number),
            ScriptLine::Audit => audit_line(alloc, number),
        }
    }
}
