// One call.
ghost use Rattle.std.specs.Option.{option_copied};
ghost use Rattle.std.specs.Prelude.{◌≡◌, ◌↔◌, IsTrue, option_map};
ghost use Rattle.wf_calls.specs.Numbers.{call_task, is_open};
ghost use Rattle.wf_calls.specs.View.{closed_view};
ghost use Rattle.wf_http_ask.specs.View.{request_view};
ghost use Rattle.wf_model.specs.Config.{Open as OpenCall, TimedOut};
ghost use Rattle.wf_model.specs.Ready.{call_due, request_in};

use crate::Closed;
use std::marker::Model;
use wf_http_ask::Request;

/// An open call: the task that waits for its answer, what was sent, and until when it waits.
#[derive(Drop)]
struct Open {
    task: u32,
    request: Request,
    due: u64,
}

/// What is known of a call. A closed one holds no request.
#[derive(Drop)]
enum State {
    Open(Open),
    Closed(Closed),
}

/// A call.
#[derive(Drop)]
pub(crate) struct Call {
    state: State,
}

impl Model for Call {
    ghost use Rattle.wf_model.specs.Config.{Call as Plain};

    ghost Value = { Plain };

    ghost use Rattle.wf_calls.specs.View.{state_view};

    ghost view = { λ c. state_view c.state };
}

impl Call {
    /// An open call.
    pub(crate) fn open(task: u32, request: Request, due: u64) -> Call
        ensures { result ≡ OpenCall task (request_view request) due }
    {
        Call {
            state: State::Open(Open { task, request, due }),
        }
    }

    /// A call that was closed so.
    pub(crate) fn closed(how: Closed) -> Call
        ensures { result ≡ closed_view how }
    {
        Call {
            state: State::Closed(how),
        }
    }

    /// Whether it is open.
    pub(crate) fn is_open(&self) -> bool
        ensures { result ≡ is_open self.now }
    {
        match &self.state {
            State::Open(_) => true,
            State::Closed(_) => false,
        }
    }

    /// Whether its due moment came before its answer.
    pub(crate) fn has_timed_out(&self) -> bool
        ensures { IsTrue result ↔ (self.now ≡ TimedOut) }
    {
        matches!(&self.state, State::Closed(Closed::TimedOut))
    }

    /// The task that waits for its answer, of an open one.
    pub(crate) fn task(&self) -> Option<u32>
        ensures { result ≡ call_task self.now }
    {
        match &self.state {
            State::Open(open) => Some(open.task),
            State::Closed(_) => None,
        }
    }

    /// Until when it waits, of an open one.
    pub(crate) fn due(&self) -> Option<u64>
        ensures { result ≡ call_due self.now }
    {
        match &self.state {
            State::Open(open) => Some(open.due),
            State::Closed(_) => None,
        }
    }

    /// What was sent, of an open one.
    pub(crate) fn request(&self) -> Option<&Request>
        ensures { option_map request_view (option_copied result) ≡ request_in self.now }
    {
        match &self.state {
            State::Open(open) => Some(&open.request),
            State::Closed(_) => None,
        }
    }
}
