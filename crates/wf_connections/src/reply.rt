// Answers, copied.
ghost use Rattle.std.specs.Prelude.{◌≡◌, IfOk, List, ℕ, option_map};
ghost use Rattle.wf_http_in.specs.AnswerOf.{AnswerOf};
ghost use Rattle.wf_http_in.specs.Stages.{HasHeard};
ghost use Rattle.wf_http_in.specs.View.{answer_view};
ghost use Rattle.wf_record_parts.specs.View.{reply_view};
ghost use Rattle.wf_value.specs.HttpBody.{Close};

use std::alloc::Global;
use wf_callbacks::Fields;
use wf_http_in::{Answer, Reading};
use wf_record_parts::{Reply, Response};
use wf_value::{Bytes, OutOfMemory};

/// The answer of what was heard, if there is one yet.
pub(crate) fn answer_of(alloc: Global, reading: &Reading) -> Result<Option<Reply>, OutOfMemory>
    ensures { IfOk result (λ a. (heard : List ℕ) (close : Close) → HasHeard reading.now heard close
        → AnswerOf heard close (option_map reply_view a)) }
{
    match reading.answer() {
        Some(answer) => Ok(Some(reply_of(alloc, &answer)?)),
        None => Ok(None),
    }
}

fn reply_of(alloc: Global, answer: &Answer<'_>) -> Result<Reply, OutOfMemory>
    ensures { IfOk result (λ r. reply_view r ≡ answer_view answer.now) }
{
    match *answer {
        Answer::Response(head, body) => Ok(Reply::Response(Response {
            code: head.code(),
            headers: Fields::copied(alloc, head.fields())?,
            body: Bytes::new(alloc, body)?,
        })),
        Answer::Broken => Ok(Reply::Broken),
        Answer::TooLong => Ok(Reply::TooLong),
    }
}
