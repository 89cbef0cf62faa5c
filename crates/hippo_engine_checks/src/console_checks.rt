//! Checks that the console's jobs and watches exist.
ghost use Rattle.std.specs.Prelude.{◌≡◌, ◌≤◌, length, MatchResult, IfErr, Err as Bad};
ghost use Rattle.hippo_report.specs.Refusals.{refusal_line};
ghost use Rattle.hippo_report.specs.declared.speaker.Speaker.TheVariants.{Console};
ghost use Rattle.hippo_engine_checks.specs.Checks.{held_watch, job_at, HasJob, reply_room};

use hippo_engine_sessions::WorldView;
use hippo_report::Refusal;

/// Checks that a watch has this number. If none has, the call returns `NoWatch`, whose reply is
/// short.
pub(crate) fn held_watch<W: WorldView>(world: &W, number: u8) -> Result<(), Refusal>
    ensures found { result ≡ held_watch (W.seen world.now) number }
    ensures fits { IfErr result (λ refusal. length (refusal_line Console refusal) ≤ reply_room) }
{
    if world.has_watch(number) {
        Ok(())
    } else {
        Err(Refusal::NoWatch(u64::from(number)))
    }
}

/// Checks that a job has this number. If none has, the call returns `NoJob`, whose reply is short.
pub(crate) fn check_job<W: WorldView>(world: &W, number: u8) -> Result<(), Refusal>
    ensures found { MatchResult result (λ passed. HasJob (W.seen world.now) number)
        (λ refusal. job_at (W.seen world.now) number ≡ Bad refusal) }
    ensures fits { IfErr result (λ refusal. length (refusal_line Console refusal) ≤ reply_room) }
{
    if world.has_job(number) {
        Ok(())
    } else {
        Err(Refusal::NoJob(u64::from(number)))
    }
}
