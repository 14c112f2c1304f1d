// What the arguments of a call ask for.
ghost use Rattle.std.specs.Prelude.{◌≡◌, ◌≤◌, IfOk, option_map, codes};
ghost use Rattle.std.specs.Option.{ForSome};
ghost use Rattle.wf_callbacks.specs.Plain.{plain_method};
ghost use Rattle.wf_http_ask.specs.Answers.{Answers};
ghost use Rattle.wf_http_ask.specs.Asking.{named};
ghost use Rattle.wf_http_out.specs.Asked.{asked_view};
ghost use Rattle.wf_value.specs.HttpRequest.{asked, method_text, whole_between};
ghost use Rattle.wf_value.specs.Data.{depth, pairs_depth, pairs_of};
ghost use Rattle.wf_value.specs.Pairs.{get};
ghost use Rattle.wf_value.specs.Plain.{plain};

use crate::arguments::{argument, pairs_at, text_at, whole_at};
use crate::pairs::Place;
use std::alloc::Global;
use wf_callbacks::Method;
use wf_http_out::Asked;
use wf_value::{Map, OutOfMemory, Raise, Tag, Value};

/// How long an answer is waited for where the arguments don't say, in seconds.
const USUAL_TIMEOUT: i64 = 300;

/// How long an answer is waited for at most, in seconds.
const LONGEST_TIMEOUT: i64 = 1_800;

/// What the arguments of a call ask for, which are `url`, `headers`, `query`, `body`, `timeout` in
/// seconds and, where the call's own name tells no method, `method`. A field's value is a text or a
/// whole number, a value of the query may be a truth value too. A `body` that is null is none, a
/// `timeout` that is absent is 300, and `auth` is accepted of any kind and not sent, as is each
/// argument of another name. The body nests no deeper than the values of the arguments.
///
/// A TypeError where `method` or `url` is no text, `headers` or `query` is there and no such map,
/// or `timeout` is there and no whole number. Only then a ValueError: where the method is none of
/// GET, POST, PUT, PATCH, DELETE and OPTIONS (RFC 9110, section 9; RFC 5789), or the timeout isn't
/// from 1 to 1,800. OutOfMemory may come in place of any answer.
pub fn asked_of(alloc: Global, method: Option<Method>, args: &Map) -> Result<Asked, Raise>
    ensures answer { Answers asked_view result
        (asked (option_map plain_method method) (pairs_of args.now)) }
    ensures depth { IfOk result
        (λ a. ForSome a.body (λ v. depth (plain v) ≤ pairs_depth (pairs_of args.now))) }
{
    let method = method_at(method, args)?;
    let url = text_at(args, "url")?;
    let fields = pairs_at(alloc, args, "headers", Place::Headers)?;
    let query = pairs_at(alloc, args, "query", Place::Query)?;
    let seconds = whole_at(args, "timeout", USUAL_TIMEOUT)?;
    let Some(method) = method else {
        return Err(Raise::Error(Tag::ValueError));
    };
    let timeout = timeout_of(seconds)?;
    let url = url.copy()?;
    let body = body_at(alloc, args)?;
    Ok(Asked {
        method,
        url,
        fields,
        query,
        body,
        timeout,
    })
}

/// The method that the call's own name tells, or else the one that its arguments name; none where no
/// method has that name.
fn method_at(method: Option<Method>, args: &Map) -> Result<Option<Method>, Raise>
    ensures { Answers (option_map plain_method) result
        (named (method_text (option_map plain_method method) (pairs_of args.now))) }
{
    match method {
        Some(method) => Ok(Some(method)),
        None => Ok(Method::named(text_at(args, "method")?.as_str())),
    }
}

fn timeout_of(seconds: i64) -> Result<u64, Raise>
    ensures { Answers (λ n. n) result (whole_between 1 1800 seconds) }
{
    if (1..=LONGEST_TIMEOUT).contains(&seconds) {
        Ok(seconds as u64)
    } else {
        Err(Raise::Error(Tag::ValueError))
    }
}

fn body_at(alloc: Global, args: &Map) -> Result<Option<Value>, OutOfMemory>
    ensures value { IfOk result (λ b. option_map plain b ≡ get (codes "body") (pairs_of args.now)) }
    ensures depth { IfOk result
        (λ b. ForSome b (λ v. depth (plain v) ≤ pairs_depth (pairs_of args.now))) }
{
    match argument(args, "body") {
        Some(value) => Ok(Some(value.copy(alloc)?)),
        None => Ok(None),
    }
}
