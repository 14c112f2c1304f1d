// Characters and tests on them.
ghost use Rattle.std.specs.Prelude.{◌≡◌, ◌+◌, ◌<◌, ◌≤◌, ◌==◌, ◌&&◌, false, length, option_map};
ghost use Rattle.wf_yaml_line.specs.Marks as texts;

/// A space or a tab.
pub fn is_blank(c: char) -> bool
    ensures { result ≡ texts.is_blank c }
{
    c == ' ' || c == '\t'
}

/// A mark of flow collections: `, [ ] { }`.
pub fn is_flow_mark(c: char) -> bool
    ensures { result ≡ texts.is_flow_mark c }
{
    matches!(c, ',' | '[' | ']' | '{' | '}')
}

/// A character that starts no plain scalar.
pub fn is_reserved(c: char) -> bool
    ensures { result ≡ texts.is_reserved c }
{
    is_flow_mark(c)
        || matches!(
            c,
            '#' | '&' | '*' | '!' | '|' | '>' | '\'' | '"' | '%' | '@' | '`'
        )
}

/// A character that starts a plain scalar only before another one that is no blank.
pub fn is_guarded(c: char) -> bool
    ensures { result ≡ texts.is_guarded c }
{
    c == '-' || c == '?' || c == ':'
}

/// Without the blanks at the front.
pub fn skip_blanks(s: &[char]) -> &[char]
    ensures rest { result.now ≡ texts.skip_blanks s.now }
    ensures len { length result.now ≤ length s.now }
{
    let mut rest = s;
    'skip: loop {
        match rest {
            [c, after @ ..] => {
                if !is_blank(*c) {
                    return rest;
                }
                rest = after;
            }
            [] => return rest,
        }
    }
}

/// Whether a blank or the end of the line follows.
pub fn ends_word(s: &[char]) -> bool
    ensures { result ≡ texts.ends_word s.now }
{
    match s {
        [] => true,
        [c, ..] => is_blank(*c),
    }
}

/// Whether what stands directly behind a token ends the line: blanks alone, or blanks and then a
/// comment.
pub fn ends_line(s: &[char]) -> bool
    ensures { result ≡ texts.ends_line s.now }
{
    match skip_blanks(s) {
        [] => true,
        [c, ..] => *c == '#' && ends_word(s),
    }
}

/// Whether a line has blanks alone, or blanks and then a comment.
pub fn is_blank_line(s: &[char]) -> bool
    ensures { result ≡ texts.is_blank_line s.now }
{
    match skip_blanks(s) {
        [] => true,
        [c, ..] => *c == '#',
    }
}

/// What stands before a comment, and whether there is one.
pub fn before_comment(s: &[char]) -> (&[char], bool)
    ensures before { result.0.now ≡ texts.before_comment false s.now }
    ensures found { result.1 ≡ texts.has_comment false s.now }
{
    let mut after_blank = false;
    for (i, c) in s.iter().enumerate() {
        if after_blank && *c == '#' {
            return (&s[..i], true);
        }
        after_blank = is_blank(*c);
    }
    (s, false)
}

/// Whether a comment starts with a character, where a blank stands before it or doesn't.
fn is_comment(after_blank: bool, c: char) -> bool
    ensures { result ≡ (after_blank && c == texts.hash) }
{
    after_blank && c == '#'
}

/// Whether a character is a `:` that a blank or the end of the line follows.
fn ends_key(c: char, rest: &[char]) -> bool
    ensures { result ≡ (c == texts.colon && texts.ends_word rest.now) }
{
    c == ':' && ends_word(rest)
}

/// The parts around the first `:` that a blank or the end follows, and that stands in no comment.
pub fn around_colon(s: &[char]) -> Option<(&[char], &[char])>
    ensures { option_map (λ p. (p.0.now, p.1.now)) result ≡ texts.around_colon false s.now }
{
    let mut after_blank = false;
    for i in 0..s.len() {
        let c = s[i];
        if is_comment(after_blank, c) {
            return None;
        }
        if ends_key(c, &s[i + 1..]) {
            return Some((&s[..i], &s[i + 1..]));
        }
        after_blank = is_blank(c);
    }
    None
}

/// Without the blanks at the end.
pub fn trimmed(s: &[char]) -> &[char]
    ensures { result.now ≡ texts.trimmed s.now }
{
    let mut n = s.len();
    while n > 0 {
        let m = n - 1;
        if !is_blank(s[m]) {
            return &s[..n];
        }
        n = m;
    }
    &s[..n]
}

/// Whether the last character is a `:`.
#[tactic(auto, using(crate::proofs::Ends::last_colon))]
pub fn ends_with_colon(s: &[char]) -> bool
    ensures { result ≡ texts.ends_with_colon s.now }
{
    match s {
        [] => false,
        [.., c] => *c == ':',
    }
}

/// Without the digits at the front.
pub fn skip_digits(s: &[char]) -> &[char]
    ensures rest { result.now ≡ texts.skip texts.is_digit s.now }
    ensures len { length result.now ≤ length s.now }
{
    let mut rest = s;
    'digits: loop {
        match rest {
            [c, after @ ..] => {
                if !is_digit(*c) {
                    return rest;
                }
                rest = after;
            }
            [] => return rest,
        }
    }
}

/// A digit of a decimal number.
pub fn is_digit(c: char) -> bool
    ensures { result ≡ texts.is_digit c }
{
    '0' <= c && c <= '9'
}

/// Without the first character, if there is one.
pub fn behind_first(s: &[char]) -> &[char]
    ensures rest { result.now ≡ texts.behind_first s.now }
    ensures len { 0 < length s.now → length result.now + 1 ≡ length s.now }
{
    match s {
        [] => s,
        [_, rest @ ..] => rest,
    }
}
