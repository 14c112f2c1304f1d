// How operators and functions are written.
use wf_ast::{Func, Op};

const OPERATORS: [Op; 13] = [
    Op::Add,
    Op::Sub,
    Op::Mul,
    Op::Div,
    Op::TruncDiv,
    Op::Rem,
    Op::Eq,
    Op::Ne,
    Op::Lt,
    Op::Le,
    Op::Gt,
    Op::Ge,
    Op::In,
];

const FUNCTIONS: [Func; 31] = [
    Func::Default,
    Func::Keys,
    Func::Len,
    Func::GetType,
    Func::Int,
    Func::String,
    Func::If,
    Func::TextSplit,
    Func::TextReplaceAll,
    Func::TextSubstring,
    Func::TextFindAll,
    Func::TextToUpper,
    Func::TextToLower,
    Func::TextUrlEncode,
    Func::TextUrlDecode,
    Func::TextEncode,
    Func::TextDecode,
    Func::ListConcat,
    Func::ListPrepend,
    Func::MapGet,
    Func::MapDelete,
    Func::MapMerge,
    Func::JsonEncode,
    Func::JsonEncodeToString,
    Func::JsonDecode,
    Func::Base64Encode,
    Func::Base64Decode,
    Func::TimeFormat,
    Func::TimeParse,
    Func::SysNow,
    Func::SysGetEnv,
];

/// The operator of a sign.
pub(crate) fn operator(text: &str) -> Option<Op> {
    for op in OPERATORS {
        if sign(op) == text {
            return Some(op);
        }
    }
    None
}

/// The sign of an operator.
pub(crate) fn sign(op: Op) -> &'static str {
    match op {
        Op::Add => "+",
        Op::Sub => "-",
        Op::Mul => "*",
        Op::Div => "/",
        Op::TruncDiv => "//",
        Op::Rem => "%",
        Op::Eq => "==",
        Op::Ne => "!=",
        Op::Lt => "<",
        Op::Le => "<=",
        Op::Gt => ">",
        Op::Ge => ">=",
        Op::In => "in",
    }
}

/// The function of a name.
pub(crate) fn function(text: &str) -> Option<Func> {
    for func in FUNCTIONS {
        if name(func) == text {
            return Some(func);
        }
    }
    None
}

/// The name of a function.
pub(crate) fn name(func: Func) -> &'static str {
    match func {
        Func::Default => "default",
        Func::Keys => "keys",
        Func::Len => "len",
        Func::GetType => "get_type",
        Func::Int => "int",
        Func::String => "string",
        Func::If => "if",
        Func::TextSplit => "text.split",
        Func::TextReplaceAll => "text.replace_all",
        Func::TextSubstring => "text.substring",
        Func::TextFindAll => "text.find_all",
        Func::TextToUpper => "text.to_upper",
        Func::TextToLower => "text.to_lower",
        Func::TextUrlEncode => "text.url_encode",
        Func::TextUrlDecode => "text.url_decode",
        Func::TextEncode => "text.encode",
        Func::TextDecode => "text.decode",
        Func::ListConcat => "list.concat",
        Func::ListPrepend => "list.prepend",
        Func::MapGet => "map.get",
        Func::MapDelete => "map.delete",
        Func::MapMerge => "map.merge",
        Func::JsonEncode => "json.encode",
        Func::JsonEncodeToString => "json.encode_to_string",
        Func::JsonDecode => "json.decode",
        Func::Base64Encode => "base64.encode",
        Func::Base64Decode => "base64.decode",
        Func::TimeFormat => "time.format",
        Func::TimeParse => "time.parse",
        Func::SysNow => "sys.now",
        Func::SysGetEnv => "sys.get_env",
    }
}
