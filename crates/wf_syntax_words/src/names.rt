// Names and words of the language.
ghost use Rattle.std.specs.Prelude.{◌≡◌, map, not};
ghost use Rattle.wf_value.specs.HttpRequest.{is_among as among};
ghost use Rattle.std.specs.List.{list_all};
ghost use Rattle.wf_syntax_words.specs.Names as names;
ghost use Rattle.wf_span.specs.Tokens.{is_letter, is_name_byte};

const RESERVED: [&str; 11] = [
    "and", "or", "not", "in", "null", "true", "True", "TRUE", "false", "False", "FALSE",
];

/// Whether a text is one of some words.
pub fn is_among(text: &str, words: &[&str]) -> bool
    ensures { result ≡ among text.now (map (λ w. w.now) words.now) }
{
    for word in words {
        if *word == text {
            return true;
        }
    }
    false
}

/// Whether a text is a name: a letter or `_`, then letters, digits and `_`, and no word that is reserved.
pub fn is_name(text: &str) -> bool
    ensures { result ≡ names.is_name text.now }
{
    let bytes = text.as_bytes();
    match bytes {
        [first, ..] => is_letter(*first) && are_name_bytes(bytes) && !is_among(text, &RESERVED),
        [] => false,
    }
}

fn is_letter(byte: u8) -> bool
    ensures { result ≡ is_letter byte }
{
    byte.is_ascii_alphabetic() || byte == b'_'
}

fn are_name_bytes(bytes: &[u8]) -> bool
    ensures { result ≡ list_all is_name_byte bytes.now }
{
    bytes
        .iter()
        .all(|byte| is_letter(*byte) || byte.is_ascii_digit())
}

/// Whether a step may have this name.
pub fn is_step_name(text: &str) -> bool
    ensures { result ≡ names.is_step_name text.now }
{
    !(text.is_empty() || is_among(text, &["end", "break", "continue"]))
}

/// The text without the marks `${` and `}` around it, if it has both.
pub fn unmarked(text: &str) -> &str
    ensures { result.now ≡ names.unmarked text.now }
{
    match text.strip_prefix("${") {
        Some(opened) => match opened.strip_suffix("}") {
            Some(inner) => inner,
            None => text,
        },
        None => text,
    }
}
