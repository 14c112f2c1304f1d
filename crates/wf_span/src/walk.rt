// A walk over the lines of a source, and what it does at each line.
ghost use Rattle.std.specs.Prelude.{◌≡◌, ◌+◌, ◌<◌, ◌≤◌, length, drop};
ghost use Rattle.std.specs.List.{AllByRecursion};
ghost use Rattle.wf_span.specs.Lines.{spaces, without_return as unreturned, source_lines, IsFirstText};
ghost use Rattle.wf_span.specs.Places.{IsPartAt, CountFrom, RiseFrom, StandFrom};
ghost use Rattle.wf_span.specs.Lefts.{left};

use crate::line::{Line, Lines};

/// The lines of a source of fewer than 4,294,967,296 bytes, in order. A line ends with LF, CR LF or
/// the source; an empty rest behind the last LF is no line. Clause `parts`: each body is the part
/// of the source at its place. Clause `whole`: before, between and behind the bodies stand their
/// spaces and line ends alone.
pub fn lines(src: &str) -> Lines<'_>
    requires { length src.now < 4294967296 }
    ensures lines { left result ≡ source_lines src.now }
    ensures parts { AllByRecursion (IsPartAt src.now) (source_lines src.now) }
    ensures numbers { CountFrom 1 (source_lines src.now) }
    ensures rising { RiseFrom 0 (source_lines src.now) }
    ensures whole { StandFrom 1 0 src.now (source_lines src.now) }
{
    Lines {
        rest: src,
        count: 0,
        at: 0,
    }
}

impl<'a> Iterator for Lines<'a> {
    type Item = Line<'a>;

    ghost use Rattle.wf_span.specs.Lefts.{YieldsLine, left};
    ghost use Rattle.std.specs.Iterator.{item_count};

    ghost next_gives = { YieldsLine };

    ghost remaining = { item_count left };

    fn next(&mut self) -> Option<Line<'a>> {
        if self.rest.is_empty() {
            return None;
        }
        let (text, rest, taken) = first_text(self.rest);
        let body = without_spaces(text);
        let indent = (text.len() - body.len()) as u32;
        let number = self.count + 1;
        let at = self.at + indent;
        self.rest = rest;
        self.count = number;
        self.at += taken as u32;
        Some(Line {
            number,
            at,
            indent,
            body,
        })
    }
}

/// The text of the first line, what stands behind the line, and how many bytes it takes with its
/// end.
fn first_text(source: &str) -> (&str, &str, usize)
    requires { 0 < length source.now }
    ensures lines { IsFirstText source.now result.0.now result.1.now result.2 }
    ensures taken { result.2 + length result.1.now ≡ length source.now }
    ensures text { length result.0.now ≤ result.2 }
    ensures some { 0 < result.2 }
{
    match source.split_once('\n') {
        Some((text, rest)) => (without_return(text), rest, text.len() + 1),
        None => (source, "", source.len()),
    }
}

/// The text without the CR at its end, if it has one.
fn without_return(text: &str) -> &str
    ensures value { result.now ≡ unreturned text.now }
    ensures len { length result.now ≤ length text.now }
{
    match text.strip_suffix('\r') {
        Some(front) => front,
        None => text,
    }
}

/// The text without the spaces at its start.
fn without_spaces(text: &str) -> &str
    ensures rest { result.now ≡ drop (spaces text.now) text.now }
    ensures len { length result.now + spaces text.now ≡ length text.now }
{
    let mut rest = text;
    'skip: loop {
        match rest.strip_prefix(' ') {
            Some(after) => rest = after,
            None => return rest,
        }
    }
}
