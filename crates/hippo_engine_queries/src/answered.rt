//! The answer to a question, in the form that its delivery needs.
ghost use Rattle.hippo_model.specs.Terms.{History};
ghost use Rattle.hippo_replay.specs.Standing.{Represents};
ghost use Rattle.hippo_engine_world.specs.Holding.{world_of};
ghost use Rattle.hippo_engine_rules.specs.Effects.{question_rows};
ghost use Rattle.hippo_engine_checks.specs.Asking.{question_of, IsAnswerable};
ghost use Rattle.hippo_engine_queries.specs.Questions.{IsAnsweredBy};

use hippo_engine_checks::{Asking, Delivery};
use hippo_engine_world::World;
use hippo_eval::EvalFault;
use hippo_eval_answer::{Lines, Standpoint, answer, answer_as_lines};
use hippo_model::Answer;
use hippo_replay::State;
use std::alloc::Global;

/// The answer to a question: its rows printed as lines, its rows to be printed as records, or the
/// rows that the cursor with this number will hold.
#[derive(Drop)]
pub enum Answered {
    Lines(Lines),
    Records(Answer),
    Held(u8, Answer),
}

/// The answer to a session's question, as of now. Fails when out of memory, or if there are too
/// many rows.
pub(crate) fn answer_of(
    alloc: Global,
    state: &State,
    world: &World,
    session: u8,
    asking: &Asking<'_>,
) -> Result<Answered, EvalFault>
    requires { IsAnswerable state.now asking.now.query }
    ensures { (history : History) → Represents state.now history
        → IsAnsweredBy session result asking.now.delivery (question_rows history
        (world_of world.now) (question_of session asking.now)) }
{
    let standpoint = Standpoint {
        book: &state.book,
        tables: &state.tables,
        count: state.count,
        pair: &asking.asker.pair,
        moment: world.clock,
    };
    let query = asking.query.get();
    match asking.delivery {
        Delivery::Rows => Ok(Answered::Lines(answer_as_lines(alloc, &standpoint, query, session)?)),
        Delivery::Records => Ok(Answered::Records(answer(alloc, &standpoint, query)?)),
        Delivery::Cursor(cursor) => {
            Ok(Answered::Held(cursor, answer(alloc, &standpoint, query)?))
        }
    }
}
