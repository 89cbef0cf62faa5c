//! Writing a reply to the output.
ghost use Rattle.std.specs.Prelude.{◌≡◌, ◌≢◌, true, Err, OnOk};
ghost use Rattle.hippo_io.specs.Faults.{HasRisen};
ghost use Rattle.hippo_io.specs.Told.{Appends, AppendsFront};
ghost use Rattle.hippo_engine_rules.specs.declared.faults.EngineFault.TheVariants.{Write as WriteFailed};
ghost use Rattle.hippo_engine.specs.Carrying.{is_carried};

use crate::engine::Engine;
use hippo_engine_rules::EngineFault;
use hippo_io::{Sink, write_whole};

impl Engine {
    /// Writes the reply to the last line to the sink. Returns `EngineFault::Write` if the sink
    /// failed; a front part of the reply may then be written.
    pub fn write_reply<K: Sink>(&self, sink: &mut K) -> Result<(), EngineFault>
        ensures written { OnOk result (Appends (K.written sink.old) (K.written sink.new)
            self.now.reply) }
        ensures cut { result ≡ Err WriteFailed
            → AppendsFront (K.written sink.old) (K.written sink.new) self.now.reply
            × HasRisen (K.faults sink.old) (K.faults sink.new) }
        ensures only { is_carried result ≡ true }
        ensures unfailed { result ≢ Err WriteFailed → K.faults sink.new ≡ K.faults sink.old }
    {
        match write_whole(sink, self.reply.as_str().as_bytes()) {
            Ok(()) => Ok(()),
            Err(_) => Err(EngineFault::Write),
        }
    }
}
