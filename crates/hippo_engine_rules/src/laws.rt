//! Laws of the effects of lines. Each is the contract of a function that does nothing.
ghost use Rattle.hippo_engine_rules.specs.EffectLaws.{RefusalsChangeNothing, LinesAddTheNextEntry};

/// A line that is refused changes nothing: neither the history nor the clock, a session, a cursor,
/// a job or a watch.
pub fn refusals_change_nothing()
    ensures { RefusalsChangeNothing }
{}

/// A line adds at most one entry to the history. The entry has the next number and the clock's
/// moment.
pub fn lines_add_the_next_entry()
    ensures { LinesAddTheNextEntry }
{}
