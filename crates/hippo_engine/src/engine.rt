//! The engine: the state of a history, and the state of a run.
ghost use Rattle.std.specs.Prelude.{◌≡◌, [], IfOk};
ghost use Rattle.hippo_engine_sessions.specs.Worlds.{opening};
ghost use Rattle.hippo_engine_world.specs.Holding.{world_of};

use hippo_engine_rules::Reply;
use hippo_engine_world::World;
use hippo_replay::State;
use hippo_report::Format;
use hippo_values::{Memory, Moment};
use std::alloc::Global;

/// The state of a history, the state of a run, and the reply to the last line.
#[derive(Drop)]
pub struct Engine {
    pub state: State,
    pub world: World,
    pub reply: Reply,
}

// The state of a run at its beginning, and memory for its replies.
fn at_beginning(
    alloc: Global,
    clock: Moment,
    limit: u32,
    format: Format,
) -> Result<(World, Reply), Memory>
    ensures world { IfOk result (λ made. world_of made.0 ≡ opening clock limit format) }
    ensures reply { IfOk result (λ made. made.1 ≡ []) }
{
    let world = World::new(alloc, clock, limit, format)?;
    let reply = Reply::with_room(alloc)?;
    Ok((world, reply))
}

impl Engine {
    /// An engine at the end of a history: the clock is at the last entry's moment, and no session
    /// is open. `limit` is the greatest number of entries that the history may have. Fails when out
    /// of memory.
    pub fn new(alloc: Global, state: State, limit: u32, format: Format) -> Result<Engine, Memory>
        ensures state { IfOk result (λ engine. engine.state ≡ state) }
        ensures world { IfOk result (λ engine. world_of engine.world
            ≡ opening state.last limit format) }
        ensures reply { IfOk result (λ engine. engine.reply ≡ []) }
    {
        match at_beginning(alloc, state.last, limit, format) {
            Ok((world, reply)) => Ok(Engine {
                state,
                world,
                reply,
            }),
            Err(Memory) => {
                state.close();
                Err(Memory)
            }
        }
    }

    /// Frees everything that the engine holds.
    pub fn close(self) {
        let Engine { state, world, .. } = self;
        state.close();
        world.close();
    }

    /// The reply to the last line. Empty before the first line, and after a line that has no reply.
    pub fn reply(&self) -> &str
        ensures { result.now ≡ self.now.reply }
    {
        self.reply.as_str()
    }
}
