// What the answer to a call gives or raises.
ghost use Rattle.wf_http_in.specs.View.{answer_view};
ghost use Rattle.wf_http_value.specs.Gives.{GivesOrRaises};
ghost use Rattle.wf_value.specs.HttpText.{reply_result};

use crate::limits::raise;
use crate::{ReplyFault, response_value};
use std::alloc::Global;
use wf_http_in::Answer;
use wf_value::{Tag, Value};

/// The value that the answer to a call gives: that of its response (`response_value`).
///
/// The errors of a response; a ConnectionError where it is Broken, and a ResourceLimitError where
/// it is TooLong.
pub fn reply_value(alloc: Global, answer: &Answer<'_>) -> Result<Value, ReplyFault>
    ensures { GivesOrRaises result (reply_result (answer_view answer.now)) }
{
    match *answer {
        Answer::Response(head, body) => { response_value(alloc, head.code(), head.fields(), body) }
        Answer::Broken => raise(alloc, Tag::ConnectionError),
        Answer::TooLong => raise(alloc, Tag::ResourceLimitError),
    }
}
