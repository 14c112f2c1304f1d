// The functions that expressions may call, with the names of their arguments.
ghost use Rattle.std.specs.Prelude.{◌≡◌, [], Some, map, option_map};
ghost use Rattle.wf_ast.specs.Func.{entry_in, func_named};
ghost use Rattle.wf_ast.specs.Functions.{basic, callable, function_of, of_system, of_texts, of_values};

use crate::Func;
use crate::arguments::ArgumentNames;

/// A function, and the names of its arguments.
#[derive(Clone, Copy)]
pub struct Function {
    pub func: Func,
    pub arguments: ArgumentNames,
}

/// The function of a name that expressions may call.
pub fn function_named(name: &str) -> Option<Function>
    ensures { option_map function_of result ≡ option_map callable (func_named name.now) }
{
    basic_function(name)
        .or(text_function(name))
        .or(value_function(name))
        .or(system_function(name))
}

fn basic_function(name: &str) -> Option<Function>
    ensures { option_map function_of result ≡ option_map callable (entry_in basic name.now) }
{
    match name {
        "default" => needing(Func::Default, &["value", "default"]),
        "keys" => needing(Func::Keys, &["map"]),
        "len" => needing(Func::Len, &["value"]),
        "get_type" => needing(Func::GetType, &["value"]),
        "int" => needing(Func::Int, &["value"]),
        "string" => needing(Func::String, &["value"]),
        "if" => needing(Func::If, &["condition", "ifTrue", "ifFalse"]),
        _ => None,
    }
}

fn text_function(name: &str) -> Option<Function>
    ensures { option_map function_of result ≡ option_map callable (entry_in of_texts name.now) }
{
    match name {
        "text.split" => needing(Func::TextSplit, &["source", "separator"]),
        "text.replace_all" => needing(Func::TextReplaceAll, &["source", "substr", "repl"]),
        "text.substring" => needing(Func::TextSubstring, &["source", "start", "end"]),
        "text.find_all" => needing(Func::TextFindAll, &["source", "substr"]),
        "text.to_upper" => needing(Func::TextToUpper, &["source"]),
        "text.to_lower" => needing(Func::TextToLower, &["source"]),
        "text.url_encode" => needing(Func::TextUrlEncode, &["source"]),
        "text.url_decode" => needing(Func::TextUrlDecode, &["source"]),
        "text.encode" => needing(Func::TextEncode, &["data"]),
        "text.decode" => needing(Func::TextDecode, &["data"]),
        _ => None,
    }
}

fn value_function(name: &str) -> Option<Function>
    ensures { option_map function_of result ≡ option_map callable (entry_in of_values name.now) }
{
    match name {
        "list.concat" => needing(Func::ListConcat, &["objs", "val"]),
        "list.prepend" => needing(Func::ListPrepend, &["objs", "val"]),
        "map.get" => needing(Func::MapGet, &["map", "keys"]),
        "map.delete" => needing(Func::MapDelete, &["map", "key"]),
        "map.merge" => needing(Func::MapMerge, &["first", "second"]),
        "json.encode" => needing(Func::JsonEncode, &["data"]),
        "json.encode_to_string" => needing(Func::JsonEncodeToString, &["data"]),
        "json.decode" => needing(Func::JsonDecode, &["data"]),
        _ => None,
    }
}

fn system_function(name: &str) -> Option<Function>
    ensures { option_map function_of result ≡ option_map callable (entry_in of_system name.now) }
{
    match name {
        "base64.encode" => needing(Func::Base64Encode, &["data"]),
        "base64.decode" => needing(Func::Base64Decode, &["data"]),
        "time.format" => needing(Func::TimeFormat, &["seconds"]),
        "time.parse" => needing(Func::TimeParse, &["value"]),
        "sys.now" => needing(Func::SysNow, &[]),
        "sys.get_env" => taking(Func::SysGetEnv, &["name"], &["default"]),
        _ => None,
    }
}

fn needing(func: Func, needs: &'static [&'static str]) -> Option<Function>
    ensures { option_map function_of result ≡ Some (record {
      func = func;
      signature = record { needs = map (λ n. n.now) needs.now; may = [] };
    }) }
{
    taking(func, needs, &[])
}

fn taking(
    func: Func,
    needs: &'static [&'static str],
    may: &'static [&'static str],
) -> Option<Function>
    ensures { option_map function_of result ≡ Some (record {
      func = func;
      signature = record {
        needs = map (λ n. n.now) needs.now;
        may = map (λ n. n.now) may.now;
      };
    }) }
{
    let arguments = ArgumentNames { needs, may };
    Some(Function { func, arguments })
}
