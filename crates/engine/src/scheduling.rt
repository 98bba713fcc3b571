//! Events for later.

ghost use Rattle.model.specs.Call.{schedule};
ghost use Rattle.engine.specs.Called.{Called, answered};

use crate::Tables;
use node::name::name_of;
use node::order::EventAction;
use node::record::VoiceId;
use node::refusal::Refusal;
use scheduler::event::Event;

impl Tables {
    /// An action for `voice` at the sample `time`, in place of the pending ones of that time, sort and parameter (SPEC
    /// 8.2, 8.3). Any name is held: one that has not 1 to 16 bytes matches no parameter. Refused with 7 if 256 events
    /// are pending then.
    pub fn schedule(
        &mut self,
        time: u64,
        voice: VoiceId,
        name: &[u8],
        action: EventAction,
    ) -> Result<(), Refusal>
        ensures { Called (schedule time voice name.now action) self.old (answered result) self.new }
    {
        self.scheduler.schedule(Event {
            time,
            voice,
            name: name_of(name),
            action,
        })
    }
}
