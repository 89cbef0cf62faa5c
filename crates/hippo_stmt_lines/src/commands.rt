//! The reading of a line as a command.
ghost use Rattle.std.specs.Prelude.{◌≡◌};
ghost use Rattle.hippo_io.specs.LineTexts.{line_text};
ghost use Rattle.hippo_stmt_lines.specs.Forms.{line_form};
ghost use Rattle.hippo_report.specs.Speakers.{speaker_at};
ghost use Rattle.hippo_stmt_lines.specs.Moments.{moment_in};
ghost use Rattle.hippo_stmt_lines.specs.Commands.{clock_command, state_command, statement_in, command_by, input_command, IsCommand};
ghost use Rattle.hippo_stmt_lines.specs.LentCommands.{command};

use crate::command::Command;
use crate::forms::LineForm;
use crate::lines::line_form;
use crate::statements::statement_in;
use hippo_io::Line;
use hippo_report::{Refusal, Speaker};
use hippo_values::Moment;
use hippo_values_text::read_moment;
use std::alloc::Global;

fn moment_in(text: &str) -> Option<Moment>
    ensures { result ≡ moment_in text.now }
{
    read_moment(text)
}

fn clock_command(text: &str) -> Command<'_>
    ensures { command result ≡ clock_command (moment_in text.now) }
{
    match moment_in(text) {
        Some(moment) => Command::SetClock { moment },
        None => Command::Wrong {
            who: Speaker::Nobody,
            refusal: Refusal::BadMoment,
        },
    }
}

#[tactic(auto, using(hippo_report::proofs::SpeakerLemmas::somebody_at))]
fn state_command<'a>(alloc: Global, session: u8, text: &'a str) -> Command<'a>
    ensures { IsCommand (state_command (speaker_at session) text.now (statement_in text.now))
        (command result) }
{
    let who = Speaker::at(session);
    match statement_in(alloc, text) {
        Ok(statement) => Command::Statement {
            who,
            statement,
            text,
        },
        Err(refusal) => Command::Wrong { who, refusal },
    }
}

fn text_command<'a>(alloc: Global, text: &'a str) -> Command<'a>
    ensures { IsCommand (command_by (line_form text.now)) (command result) }
{
    match line_form(text) {
        None => Command::Wrong {
            who: Speaker::Nobody,
            refusal: Refusal::BadLine,
        },
        Some(LineForm::Silent) => Command::Nothing,
        Some(LineForm::At { moment }) => clock_command(moment),
        Some(LineForm::Short { session, request }) => Command::Request {
            who: Speaker::at(session),
            request,
        },
        Some(LineForm::Statement { session, text }) => state_command(alloc, session, text),
    }
}

/// What a line commands, by the forms of lines and the grammar alone. A statement may instead be
/// refused when out of memory; no other line takes memory. The end of the input commands nothing.
pub fn command_of<'a>(alloc: Global, line: Line<'a>) -> Command<'a>
    ensures { IsCommand (input_command (line_text line.entry)) (command result) }
{
    match line {
        Line::Text(text) => text_command(alloc, text),
        Line::TooLong => Command::Wrong {
            who: Speaker::Nobody,
            refusal: Refusal::LineTooLong,
        },
        Line::NotUtf8 => Command::Wrong {
            who: Speaker::Nobody,
            refusal: Refusal::BadLine,
        },
        Line::End => Command::Nothing,
    }
}
