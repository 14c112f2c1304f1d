//! What each function answers to its arguments.
ghost use Rattle.std.specs.Prelude.{◌≡◌, ◌∷◌, [], ℕ};
ghost use Rattle.wf_ast.specs.Apply.{View, apply, as_env};
ghost use Rattle.wf_value.specs.LibData.{json_encode, json_encode_to_string};
ghost use Rattle.wf_value.specs.Data.{Data};
ghost use Rattle.wf_value.specs.Errors.{Answer};
ghost use Rattle.wf_value.specs.Plain.{plain, plain_items};
ghost use Rattle.wf_eval.specs.Answers.{Gives};
ghost use Rattle.wf_eval.specs.Sight.{seen};

use crate::answers::{copied, text};
use crate::functions::{chosen_by, int, keys, kind_name, len, or_default, string};
use crate::look::Look;
use std::alloc::Global;
use wf_ast::Func;
use wf_lib_data::{
    base64_decode, base64_encode, json_decode, json_encode, json_encode_to_string, list_concat,
    list_prepend, map_delete, map_get, map_merge,
};
use wf_lib_text::{
    text_decode, text_encode, text_find_all, text_replace_all, text_split, text_substring,
    text_to_lower, text_to_upper, text_url_decode, text_url_encode,
};
use wf_lib_time::{time_format, time_parse};
use wf_value::{MAX_DEPTH, Raise, Tag, Value};

/// What a function answers to its arguments. Another count than it takes is a TypeError.
pub fn apply<K: Look>(
    alloc: Global,
    f: Func,
    args: &[Value],
    look: &K,
    now: u64,
) -> Result<Value, Raise>
    ensures { Gives result (apply (seen (K.sight look.now) now) f (plain_items args.now)) }
{
    match args {
        [] => apply_none(f, now),
        [v] => apply_one(alloc, f, v, look),
        [v, w] => apply_two(alloc, f, v, w, look),
        [u, v, w] => apply_three(alloc, f, u, v, w),
        [_, _, _, _, ..] => Err(Raise::Error(Tag::TypeError)),
    }
}

fn apply_none(f: Func, now: u64) -> Result<Value, Raise>
    ensures { (s : View) → s.now ≡ now → Gives result (apply s f []) }
{
    match f {
        Func::SysNow => Ok(Value::Int((now / 1000) as i64)),
        _ => Err(Raise::Error(Tag::TypeError)),
    }
}

fn apply_one<K: Look>(alloc: Global, f: Func, v: &Value, look: &K) -> Result<Value, Raise>
    ensures { (now : ℕ) → Gives result (apply (seen (K.sight look.now) now) f (plain v.now ∷ [])) }
{
    match f {
        Func::Keys => keys(alloc, v),
        Func::Len => len(v),
        Func::GetType => text(alloc, kind_name(v)),
        Func::Int => int(v),
        Func::String => string(alloc, v),
        Func::TextToUpper => text_to_upper(alloc, v),
        Func::TextToLower => text_to_lower(alloc, v),
        Func::TextUrlEncode => text_url_encode(alloc, v),
        Func::TextUrlDecode => text_url_decode(alloc, v),
        Func::TextEncode => text_encode(alloc, v),
        Func::TextDecode => text_decode(alloc, v),
        Func::JsonEncode => json_bytes(alloc, v),
        Func::JsonEncodeToString => json_text(alloc, v),
        Func::JsonDecode => json_decode(alloc, v),
        Func::Base64Encode => base64_encode(alloc, v),
        Func::Base64Decode => base64_decode(alloc, v),
        Func::TimeFormat => time_format(alloc, v),
        Func::TimeParse => time_parse(alloc, v),
        Func::SysGetEnv => get_env(alloc, look, v, Err(Raise::Error(Tag::KeyError))),
        _ => Err(Raise::Error(Tag::TypeError)),
    }
}

fn apply_two<K: Look>(
    alloc: Global,
    f: Func,
    v: &Value,
    w: &Value,
    look: &K,
) -> Result<Value, Raise>
    ensures { (now : ℕ) → Gives result
        (apply (seen (K.sight look.now) now) f (plain v.now ∷ plain w.now ∷ [])) }
{
    match f {
        Func::Default => or_default(alloc, v, w),
        Func::TextSplit => text_split(alloc, v, w),
        Func::TextFindAll => text_find_all(alloc, v, w),
        Func::ListConcat => list_concat(alloc, v, w),
        Func::ListPrepend => list_prepend(alloc, v, w),
        Func::MapGet => map_get(alloc, v, w),
        Func::MapDelete => map_delete(alloc, v, w),
        Func::MapMerge => map_merge(alloc, v, w),
        Func::SysGetEnv => get_env(alloc, look, v, copied(alloc, w)),
        _ => Err(Raise::Error(Tag::TypeError)),
    }
}

fn apply_three(alloc: Global, f: Func, u: &Value, v: &Value, w: &Value) -> Result<Value, Raise>
    ensures { (s : View) → Gives result (apply s f (plain u.now ∷ plain v.now ∷ plain w.now ∷ [])) }
{
    match f {
        Func::If => chosen_by(alloc, u, v, w),
        Func::TextReplaceAll => text_replace_all(alloc, u, v, w),
        Func::TextSubstring => text_substring(alloc, u, v, w),
        _ => Err(Raise::Error(Tag::TypeError)),
    }
}

/// `json.encode`. No value of an expression nests deeper than the limit.
fn json_bytes(alloc: Global, v: &Value) -> Result<Value, Raise>
    ensures { Gives result (json_encode (plain v.now)) }
{
    if v.depth() > MAX_DEPTH {
        return Err(Raise::OutOfMemory);
    }
    json_encode(alloc, v)
}

/// `json.encode_to_string`
fn json_text(alloc: Global, v: &Value) -> Result<Value, Raise>
    ensures { Gives result (json_encode_to_string (plain v.now)) }
{
    if v.depth() > MAX_DEPTH {
        return Err(Raise::OutOfMemory);
    }
    json_encode_to_string(alloc, v)
}

/// `sys.get_env`, with what it answers where the key is absent.
fn get_env<K: Look>(
    alloc: Global,
    look: &K,
    key: &Value,
    absent: Result<Value, Raise>,
) -> Result<Value, Raise>
    ensures { (d : Answer Data) → Gives absent d
        → (now : ℕ) → Gives result (as_env (seen (K.sight look.now) now) (plain key.now) d) }
{
    match key {
        Value::Text(k) => match look.env(k.as_str()) {
            Some(t) => text(alloc, t),
            None => absent,
        },
        _ => Err(Raise::Error(Tag::TypeError)),
    }
}
