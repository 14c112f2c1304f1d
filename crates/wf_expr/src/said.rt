// What quoted texts say.
ghost use Rattle.std.specs.Prelude.{◌≡◌, ◌++◌, true, false, IfOk, string_bytes};
ghost use Rattle.std.specs.Char.{encode_utf8};
ghost use Rattle.wf_expr.specs.Symbols.{text_said, escaped};
ghost use Rattle.wf_span.specs.Tokens.{is_token};
ghost use Rattle.wf_span.specs.declared.token.TokenKind.TheVariants as token;

use std::alloc::Global;
use wf_value::{OutOfMemory, Text};

/// What a quoted text says.
pub(crate) fn said(alloc: Global, text: &str) -> Result<Text, OutOfMemory>
    requires { is_token token.Text text.now ≡ true }
    ensures { IfOk result (λ t. t ≡ text_said text.now) }
{
    let mut chars = text.chars();
    let mut out = String::new(alloc);
    let Some(quote) = chars.next() else {
        return Text::new(alloc, "");
    };
    let mut after_backslash = false;
    for c in chars {
        if after_backslash {
            push(&mut out, meant(c))?;
            after_backslash = false;
        } else if c == '\\' {
            after_backslash = true;
        } else if c == quote {
            break;
        } else {
            push(&mut out, c)?;
        }
    }
    Text::new(alloc, out.as_str())
}

fn push(out: &mut String, c: char) -> Result<(), OutOfMemory>
    ensures { IfOk result (λ _. string_bytes out.new ≡ string_bytes out.old ++ encode_utf8 c) }
{
    out.push(c)?;
    Ok(())
}

/// The character that an escape's letter stands for.
fn meant(c: char) -> char
    ensures { result ≡ escaped c }
{
    match c {
        'n' => '\n',
        'r' => '\r',
        't' => '\t',
        _ => c,
    }
}
