//! Laws of watches, over runs.
ghost use Rattle.hippo_engine_laws.specs.RunLaws.{StandingAudits, AlarmsAreFlags};

/// The alarms in the reply to a question are, for each watch, the flag that the watch's audit gives
/// for the question's entry in any longer history.
pub fn alarms_are_flags()
    ensures { AlarmsAreFlags }
{}

/// While a watch is set, its alarms are the flags that one DURING with the same expression
/// gives, at any later time, for the questions that were answered while the watch was set.
pub fn standing_audits()
    ensures { StandingAudits }
{}
