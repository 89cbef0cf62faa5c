//! Laws of audit jobs, over runs.
ghost use Rattle.hippo_engine_laws.specs.RunLaws.{AnyCut, StepsReplyAsOneAudit};

/// The steps of an audit job write the flags of the history at the job's beginning: what its steps
/// have written, with what waits to be written, is the flags up to the number that the job has
/// looked up to. This holds however the job is cut into steps, and whatever other lines come
/// between them.
pub fn any_cut()
    ensures { AnyCut }
{}

/// If the reply to a step says `end`, then the flags that the job's steps have written, followed by
/// that line with their number, are the reply that one DURING would have had when the job
/// began.
pub fn steps_reply_as_one_audit()
    ensures { StepsReplyAsOneAudit }
{}
