//! The authorizations in force, one line for each.
ghost use Rattle.std.specs.Prelude.{◌≡◌, ◌++◌, [], ◌∷◌, false, filter, MatchOption, IfOk, OnOk};
ghost use Rattle.hippo_model.specs.declared.entry.Act.TheVariants.{Authorize, Deauthorize};
ghost use Rattle.hippo_model.specs.Terms.{History};
ghost use Rattle.hippo_history_top.specs.Dating.{entries_to};
ghost use Rattle.hippo_history_top.specs.Granting.{authorizes, deauthorizes, is_left_by, grant_by, granted, grants_of, grants_shown};

use crate::asking::Bound;
use crate::gathering::Gather;
use crate::scope::is_to;
use hippo_history_formats::{Grant, append_grant};
use hippo_model::{Act, Entry};
use hippo_report::Format;
use hippo_values::{Duplicate, Memory, Name, Txt};
use std::alloc::Global;

/// Authorizations that are in force.
#[derive(Drop)]
pub(crate) struct Grants {
    list: Vec<Grant>,
}

// Who may ask for which purpose and recipient.
#[derive(Clone, Copy)]
struct Asker<'a> {
    user: &'a Name,
    purpose: &'a Name,
    recipient: &'a Name,
}

// Who is authorized by an act, if anybody is.
fn authorized_in<'a>(act: &'a Act) -> Option<Asker<'a>>
    ensures { MatchOption result (authorizes act.now ≡ false) (λ asker. act.now
        ≡ Authorize asker.user.now asker.purpose.now asker.recipient.now) }
{
    let Act::Authorize {
        user,
        purpose,
        recipient,
    } = act
    else {
        return None;
    };
    Some(Asker {
        user,
        purpose,
        recipient,
    })
}

// Who is deauthorized by an act, if anybody is.
fn deauthorized_in<'a>(act: &'a Act) -> Option<Asker<'a>>
    ensures { MatchOption result (deauthorizes act.now ≡ false) (λ asker. act.now
        ≡ Deauthorize asker.user.now asker.purpose.now asker.recipient.now) }
{
    let Act::Deauthorize {
        user,
        purpose,
        recipient,
    } = act
    else {
        return None;
    };
    Some(Asker {
        user,
        purpose,
        recipient,
    })
}

// Whether an authorization is another user's, or for another purpose or recipient.
fn is_other(grant: &Grant, asker: &Asker<'_>) -> bool
    ensures { result ≡ is_left_by (Authorize asker.now.user.now asker.now.purpose.now
        asker.now.recipient.now) grant.now }
{
    !(*asker.user == grant.user
        && *asker.purpose == grant.purpose
        && *asker.recipient == grant.recipient)
}

// Drops the authorization of a user for a purpose and a recipient, if there is one.
fn drop_grant(list: &mut Vec<Grant>, asker: &Asker<'_>)
    ensures { list.new.items ≡ filter (is_left_by (Authorize asker.now.user.now
        asker.now.purpose.now asker.now.recipient.now)) list.old.items }
{
    list.retain(|grant| is_other(grant, asker));
}

// Drops the authorization that an act takes back. The act gives none.
fn drop_deauthorized(list: &mut Vec<Grant>, act: &Act)
    requires other { authorizes act.now ≡ false }
    ensures { list.new.items ≡ filter (is_left_by act.now) list.old.items }
{
    match deauthorized_in(act) {
        None => {}
        Some(asker) => drop_grant(list, &asker),
    }
}

fn grant_by(alloc: Global, entry: &Entry, asker: &Asker<'_>) -> Result<Grant, Memory>
    ensures { IfOk result (λ grant. grant ≡ grant_by entry.now.seq entry.now.moment
        asker.now.user.now asker.now.purpose.now asker.now.recipient.now) }
{
    let user = asker.user.copy(alloc)?;
    let purpose = asker.purpose.copy(alloc)?;
    let recipient = asker.recipient.copy(alloc)?;
    Ok(Grant {
        entry: entry.seq,
        moment: entry.moment,
        user,
        purpose,
        recipient,
    })
}

// Adds the authorization that an entry gives, in the place of an earlier one.
fn replace_grant(
    alloc: Global,
    entry: &Entry,
    asker: &Asker<'_>,
    list: &mut Vec<Grant>,
) -> Result<(), Memory>
    ensures { OnOk result (list.new.items ≡ filter (is_left_by (Authorize asker.now.user.now
        asker.now.purpose.now asker.now.recipient.now)) list.old.items
        ++ grant_by entry.now.seq entry.now.moment asker.now.user.now asker.now.purpose.now
        asker.now.recipient.now ∷ []) }
{
    let grant = grant_by(alloc, entry, asker)?;
    drop_grant(list, asker);
    list.push(grant)?;
    Ok(())
}

// Takes in an entry that is not after the bound.
fn take_in(alloc: Global, entry: &Entry, list: &mut Vec<Grant>) -> Result<(), Memory>
    ensures { OnOk result (list.new.items ≡ filter (is_left_by entry.now.act) list.old.items
        ++ granted entry.now.seq entry.now.moment entry.now.act []) }
{
    match authorized_in(&entry.act) {
        None => {
            drop_deauthorized(list, &entry.act);
            Ok(())
        }
        Some(asker) => replace_grant(alloc, entry, &asker, list),
    }
}

impl Grants {
    /// No authorizations. Allocates nothing.
    pub(crate) fn new(alloc: Global) -> Grants
        ensures { result.list.items ≡ [] }
    {
        Grants {
            list: Vec::new(alloc),
        }
    }

    pub(crate) fn as_slice(&self) -> &[Grant]
        ensures { result.now ≡ self.now.list.items }
    {
        self.list.as_slice()
    }

    // Goes on over the next entry.
    fn add(&mut self, alloc: Global, last: &Bound, entry: &Entry) -> Result<(), Memory>
        ensures covers { OnOk result ((read : History)
            → self.old.list.items ≡ grants_of (entries_to last.now read)
            → self.new.list.items ≡ grants_of (entries_to last.now
            (read ++ entry.now ∷ []))) }
    {
        if is_to(*last, entry) {
            take_in(alloc, entry, &mut self.list)
        } else {
            Ok(())
        }
    }
}

impl Gather<Bound> for Grants {
    ghost Covers = { λ gathered last read. gathered.list.items
        ≡ grants_of (entries_to last read) };

    fn cover(&mut self, alloc: Global, last: &Bound, entry: &Entry) -> Result<(), Memory> {
        self.add(alloc, last, entry)
    }
}

/// Appends a line for each authorization.
pub(crate) fn append_grants(
    alloc: Global,
    format: Format,
    grants: &[Grant],
    out: &mut Txt,
) -> Result<(), Memory>
    ensures { OnOk result (out.new ≡ out.old ++ grants_shown format grants.now) }
{
    for grant in grants {
        append_grant(alloc, format, grant, out)?;
    }
    Ok(())
}
