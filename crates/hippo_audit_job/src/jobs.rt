//! Audit jobs, which examine the logged queries of a history in steps.
ghost use Rattle.std.specs.Prelude.{◌≡◌, ◌==◌, ◌<◌, ◌+◌, min, true, [], option_map, OnOk, OnErr};
ghost use Rattle.hippo_keeper.specs.Keeping.{IsReady};
ghost use Rattle.hippo_audit_job.specs.Examining.{shown_count};

use crate::examiner::Examiner;
use crate::past::Past;
use crate::questions::find_flag;
use crate::reading::{first_up_to, has_read, read_ahead};
use hippo_backlog::{Ahead, ReadFault};
use hippo_keeper::{CountedKeeper, Steps};
use hippo_model::{Audit, Entry, Flag, Flags};
use hippo_values::Memory;
use std::alloc::Global;
use std::sync::ledger::Ledger;

// The last entry number of a step: `count` numbers after `place`, but at most `length`.
fn step_end(place: u64, count: u64, length: u64) -> u64
    ensures { result ≡ min (place + count) length }
{
    place.saturating_add(count).min(length)
}

/// An audit of the first entries of a history. It examines the logged queries of its period in
/// steps; the flags do not depend on how the steps are cut.
#[derive(Drop)]
pub struct Job<X> {
    audit: Audit,
    // How many entries the history had when the job began.
    length: u64,
    // The last entry number that the job has looked at.
    place: u64,
    // The flags that are not written yet.
    waiting: Flags,
    // How many flags the job has found.
    found: u64,
    unbroken: bool,
    // The logged queries of the period that were read ahead, after `place`.
    questions: Ahead,
    examiner: X,
}

impl<X> Job<X> {
    ghost use Rattle.hippo_audit_job.specs.Jobs.{new_job};

    /// A job over the first `length` entries, with a new examiner. Allocates nothing.
    pub fn begin(alloc: Global, audit: Audit, length: u64, examiner: X) -> Job<X>
        ensures { result ≡ new_job audit length examiner }
    {
        Job {
            audit,
            length,
            place: 0,
            waiting: Flags::new(alloc),
            found: 0,
            unbroken: true,
            questions: Ahead::new(alloc),
            examiner,
        }
    }

    /// Whether the job has looked at all of its entries.
    pub fn at_end(&self) -> bool
        ensures { result ≡ (self.now.place == self.now.length) }
    {
        self.place == self.length
    }

    /// The last entry number that the job has looked at. It is 0 at first.
    pub fn place(&self) -> u64
        ensures { result ≡ self.now.place }
    {
        self.place
    }

    /// How many flags the job has found, including those that are already written.
    pub fn flag_count(&self) -> u64
        ensures { result ≡ self.now.found }
    {
        self.found
    }

    /// The flags that are not written yet, in the order of their entry numbers.
    pub fn waiting(&self) -> &Flags
        ensures { result.now ≡ self.now.waiting }
    {
        &self.waiting
    }

    /// Whether every step so far returned Ok.
    pub fn unbroken(&self) -> bool
        ensures { result ≡ self.now.unbroken }
    {
        self.unbroken
    }

    /// Drops the flags that wait: they are written now. Allocates nothing.
    pub fn written(&mut self)
        ensures { self.new ≡ record self.old { waiting = [] } }
    {
        self.waiting.clear();
    }

    /// How many versions the job's examiner was handed, if it counts them. The count stops at 2^64
    /// - 1.
    pub fn taken<P: CountedKeeper<L>, L: Ledger>(&self) -> Option<u64>
    where
        X: Examiner<P, L>,
        ensures { result ≡ option_map shown_count (X.terms.handed self.now.examiner) }
    {
        self.examiner.taken()
    }
}

impl<X> Job<X> {
    ghost use Rattle.hippo_audit_job.specs.Jobs.{with_flag, IsSoundJob, MayLook, IsAsFar, LooksOn, HasStepped};
    ghost use Rattle.hippo_audit_job.specs.Flagging.{IsFirstWaiting};
    ghost use Rattle.hippo_backlog.specs.ReadingAhead.{BeginsAbove, without_first};

    // Appends a flag to those that wait, and removes the first logged query that was read ahead.
    fn add(&mut self, number: u64, flag: Option<Flag>) -> Result<(), Memory>
        requires within { self.old.found < number }
        ensures ok { OnOk result (self.new ≡ with_flag number flag self.old) }
        ensures err { OnErr result (self.new ≡ self.old) }
    {
        if let Some(flag) = flag {
            self.waiting.push(flag)?;
            self.found += 1;
        }
        self.questions.pass();
        self.place = number;
        Ok(())
    }

    // Looks at `entry`, the first logged query that was read ahead.
    fn look_at<P: CountedKeeper<L>, L: Ledger>(
        &mut self,
        entry: Entry,
        keeper: &mut P,
        alloc: Global,
        past: &Past<'_>,
        steps: &mut Steps<L>,
    ) -> Result<(), ReadFault>
    where
        X: Examiner<P, L>,
        requires may { MayLook X.terms entry.seq self.old (P.state keeper.old) }
        requires first { IsFirstWaiting self.old.questions entry }
        ensures looks { LooksOn X.terms entry.seq past.now result self.old self.new
            (P.state keeper.old) (P.state keeper.new) steps.old steps.new }
        ensures used { OnOk result (self.new.questions ≡ without_first self.old.questions) }
        ensures others { IsAsFar self.old self.new }
    {
        let number = entry.seq;
        self.place = number - 1;
        match find_flag(
            &mut self.examiner,
            keeper,
            alloc,
            past,
            entry,
            &self.audit,
            steps,
        ) {
            Ok(flag) => match self.add(number, flag) {
                Ok(()) => Ok(()),
                Err(Memory) => Err(ReadFault::Memory),
            },
            Err(fault) => Err(fault),
        }
    }

    // Looks at the logged queries that were read ahead and whose numbers are at most `upto`.
    fn look_at_waiting<P: CountedKeeper<L>, L: Ledger>(
        &mut self,
        keeper: &mut P,
        alloc: Global,
        upto: u64,
        past: &Past<'_>,
        steps: &mut Steps<L>,
    ) -> Result<(), ReadFault>
    where
        X: Examiner<P, L>,
        requires may { MayLook X.terms upto self.old (P.state keeper.old) }
        ensures looks { LooksOn X.terms upto past.now result self.old self.new
            (P.state keeper.old) (P.state keeper.new) steps.old steps.new }
        ensures past { OnOk result (BeginsAbove upto self.new.questions.waiting) }
        ensures others { IsAsFar self.old self.new }
    {
        loop {
            match first_up_to(&self.questions, alloc, upto) {
                Ok(Some(entry)) => match self.look_at(entry, keeper, alloc, past, steps) {
                    Ok(()) => {}
                    Err(fault) => return Err(fault),
                },
                Ok(None) => return Ok(()),
                Err(fault) => return Err(fault),
            }
        }
    }

    /// Looks at the next `count` entry numbers, but not beyond the job's end. The flags that it
    /// finds are appended to those that wait.
    ///
    /// On failure the job has looked at the numbers up to some number in between, and the flags up
    /// to there wait. This is guaranteed if the keeper's contents are known, they are a valid
    /// history whose past is `past`, and the job fits that history. `Damaged` is then never
    /// returned. `Keeper` is returned only if the keeper's count of faults rose. The steps and the
    /// count of `taken` rise by the same number.
    pub fn step<P: CountedKeeper<L>, L: Ledger>(
        &mut self,
        keeper: &mut P,
        alloc: Global,
        count: u64,
        past: &Past<'_>,
        steps: &mut Steps<L>,
    ) -> Result<(), ReadFault>
    where
        X: Examiner<P, L>,
        requires ready { IsReady true (P.state keeper.old) }
        requires sound { IsSoundJob X.terms self.old }
        ensures stepped { HasStepped X.terms count past.now result self.old self.new
            (P.state keeper.old) (P.state keeper.new) steps.old steps.new }
    {
        let upto = step_end(self.place, count, self.length);
        loop {
            match self.look_at_waiting(keeper, alloc, upto, past, steps) {
                Ok(()) => {}
                Err(fault) => {
                    self.unbroken = false;
                    return Err(fault);
                }
            }
            if has_read(&self.questions, upto) {
                self.place = upto;
                return Ok(());
            }
            match read_ahead(&mut self.questions, keeper, alloc, &self.audit, self.length) {
                Ok(()) => {}
                Err(fault) => {
                    self.unbroken = false;
                    return Err(fault);
                }
            }
        }
    }
}
