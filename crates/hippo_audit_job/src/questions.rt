//! Finds the flag of one logged query.
ghost use Rattle.std.specs.Prelude.{◌≡◌, option_map, option_and_then};
ghost use Rattle.std.specs.Bool.{then_some};
ghost use Rattle.hippo_model.specs.Audits.{flag_by};
ghost use Rattle.hippo_model.specs.Columns.{names_all};
ghost use Rattle.hippo_audit_job.specs.Examining.{MayExamine};
ghost use Rattle.hippo_audit_job.specs.Looking.{question_parts, IsCandidateOf, LooksAt};
ghost use Rattle.hippo_audit_job.specs.Flagging.{FindsFlag};

use crate::candidates::{in_period, is_exempt, names_all};
use crate::examiner::Examiner;
use crate::past::Past;
use hippo_backlog::ReadFault;
use hippo_keeper::{CountedKeeper, Steps};
use hippo_model::{Act, Audit, Entry, Flag, Pair, Query, SharedTuple};
use hippo_typing::read_meaning;
use hippo_values::{Memory, Moment, Name, Txt};
use std::alloc::Global;
use std::sync::ledger::Ledger;

// The purpose and recipient of a logged query, and its text.
#[derive(Clone, Copy)]
struct Question<'a> {
    purpose: &'a Name,
    recipient: &'a Name,
    text: &'a Txt,
}

fn question_in(act: &Act) -> Option<Question<'_>>
    ensures { option_map (λ q. (q.purpose.now, q.recipient.now, q.text.now)) result
        ≡ question_parts act.now }
{
    match act {
        Act::Asked {
            purpose,
            recipient,
            text,
            ..
        } => Some(Question {
            purpose,
            recipient,
            text,
        }),
        _ => None,
    }
}

// A flag made of an entry's number, moment and act and of its shared tuple; `None` if the act is
// not a logged query.
fn flag_by(seq: u64, moment: Moment, act: Act, shared: SharedTuple) -> Option<Flag>
    ensures { result ≡ flag_by (record { seq = seq; moment = moment; act = act }) act shared }
{
    match act {
        Act::Asked {
            user,
            purpose,
            recipient,
            text,
        } => {
            drop(text);
            Some(Flag {
                seq,
                moment,
                user,
                pair: Pair { purpose, recipient },
                shared,
            })
        }
        other => {
            drop(other);
            None
        }
    }
}

// The flag of an entry, if it has a shared tuple.
fn flagged(entry: Entry, shared: Option<SharedTuple>) -> Option<Flag>
    ensures { result ≡ option_and_then (flag_by entry entry.act) shared }
{
    let Entry { seq, moment, act } = entry;
    match shared {
        None => None,
        Some(shared) => flag_by(seq, moment, act, shared),
    }
}

// The query, if it names every audited column.
fn naming(query: Query, audit: &Audit) -> Option<Query>
    ensures { result ≡ then_some (names_all query audit.now) query }
{
    if names_all(&query, audit) {
        Some(query)
    } else {
        drop(query);
        None
    }
}

// The query that a logged query's text means, if it names every audited column. `Damaged` with the
// entry's number if the text means nothing.
fn candidate(
    alloc: Global,
    past: &Past<'_>,
    audit: &Audit,
    number: u64,
    text: &Txt,
) -> Result<Option<Query>, ReadFault>
    ensures { IsCandidateOf past.now audit.now text.now result }
{
    match read_meaning(alloc, past.catalog, text.as_str()) {
        Ok(Some(query)) => Ok(naming(query, audit)),
        Ok(None) => Err(ReadFault::Damaged(number)),
        Err(Memory) => Err(ReadFault::Memory),
    }
}

/// Returns the tuple that a logged query shares with an audit; `None` if the query is not a
/// candidate. `Damaged` if the entry is not a logged query of the audit's period, or if its text
/// means nothing.
pub(crate) fn shared_with<P: CountedKeeper<L>, L: Ledger, X: Examiner<P, L>>(
    examiner: &mut X,
    keeper: &mut P,
    alloc: Global,
    past: &Past<'_>,
    entry: &Entry,
    audit: &Audit,
    steps: &mut Steps<L>,
) -> Result<Option<SharedTuple>, ReadFault>
    requires may { MayExamine X.terms audit.now entry.now.seq examiner.old (P.state keeper.old) }
    ensures looks { LooksAt X.terms past.now audit.now entry.now result examiner.old examiner.new
        (P.state keeper.old) (P.state keeper.new) steps.old steps.new }
{
    let Some(question) = question_in(&entry.act) else {
        return Err(ReadFault::Damaged(entry.seq));
    };
    if !in_period(audit, entry.moment) {
        return Err(ReadFault::Damaged(entry.seq));
    }
    if is_exempt(audit, question.purpose, question.recipient) {
        return Ok(None);
    }
    match candidate(alloc, past, audit, entry.seq, question.text) {
        Ok(Some(query)) => {
            let shared = examiner.examine(keeper, alloc, past, entry, &query, audit, steps);
            drop(query);
            shared
        }
        Ok(None) => Ok(None),
        Err(fault) => Err(fault),
    }
}

/// Returns the flag of a logged query if it shares a tuple with an audit. The errors are those of
/// `shared_with`.
pub(crate) fn find_flag<P: CountedKeeper<L>, L: Ledger, X: Examiner<P, L>>(
    examiner: &mut X,
    keeper: &mut P,
    alloc: Global,
    past: &Past<'_>,
    entry: Entry,
    audit: &Audit,
    steps: &mut Steps<L>,
) -> Result<Option<Flag>, ReadFault>
    requires may { MayExamine X.terms audit.now entry.seq examiner.old (P.state keeper.old) }
    ensures { FindsFlag X.terms past.now audit.now entry result examiner.old examiner.new
        (P.state keeper.old) (P.state keeper.new) steps.old steps.new }
{
    match shared_with(examiner, keeper, alloc, past, &entry, audit, steps) {
        Ok(shared) => Ok(flagged(entry, shared)),
        Err(fault) => {
            drop(entry);
            Err(fault)
        }
    }
}
