// What was heard and waits for its turn.
ghost use Rattle.wf_engine.specs.Fits.{FitsRecords, FitsRecords-prop};
ghost use Rattle.wf_record_parts.specs.View.{reply_view};

use wf_events::Event;
use wf_record_parts::Reply;

/// The answer to a call, which waits for its turn.
#[derive(Drop)]
pub struct Taken {
    pub(crate) call: u64,
    pub(crate) reply: Box<Reply>,
    ghost fits: { FitsRecords (reply_view reply.value) } by { FitsRecords-prop _ },
}

impl Taken {
    ghost use Rattle.std.specs.Prelude.{◌≡◌, ◌≤◌, length};
    ghost use Rattle.wf_engine.specs.Fits.{longest_taken};
    ghost use Rattle.wf_events.specs.Spelling.{event as event_bytes, IsOld};
    ghost use Rattle.wf_events.specs.View.{event_view};
    ghost use Rattle.wf_value.specs.Events.{Answer};

    /// The event that brings it, at a reading of the clock in milliseconds since 1970.
    pub(crate) fn event(self, reading: u64) -> Event
        ensures event { event_view result ≡ Answer self.call reading (reply_view self.reply.value) }
        ensures old { IsOld (event_view result) }
        ensures short { length (event_bytes (event_view result)) ≤ longest_taken }
    {
        let Taken { call, reply } = self;
        Event::Answer(call, reading, reply)
    }
}
