// Names, and the marks by which they are told apart.
ghost use Rattle.std.specs.Prelude.{◌≡◌, ◌≢◌, IfOk, MatchBool, slice_index};
ghost use Rattle.wf_name.specs.Marks.{AreBytes, first_of, mark_of};

use std::alloc::Global;
use std::marker::Model;
use wf_value::{OutOfMemory, Text};

/// The least mark of a name that is longer than what a mark holds.
const LONG: u64 = 8 << 56;

/// The name of a variable, which contracts see as its bytes. Copies share the bytes.
///
/// Beside its text stands a mark of its length and of its first seven bytes. So names of up to seven bytes are compared by a number each.
#[derive(Drop)]
pub struct Name {
    mark: u64,
    text: Text,
}

impl Model for Name {
    ghost use Rattle.std.specs.Prelude.{List, ℕ, ◌≡◌};
    ghost use Rattle.wf_name.specs.Marks.{AreBytes, mark_of};

    ghost Value = { List ℕ };

    ghost view = { λ a. a.text };

    ghost invariant = { λ a. (a.mark ≡ mark_of a.text) × AreBytes a.text };
}

impl Name {
    /// The name of these characters, copied.
    pub fn new(alloc: Global, s: &str) -> Result<Name, OutOfMemory>
        ensures { IfOk result (λ n. n ≡ s.now) }
    {
        Ok(Name::of(Text::new(alloc, s)?))
    }

    /// The name that a text is. It shares the bytes.
    pub fn of(text: Text) -> Name
        ensures { result ≡ text }
    {
        Name {
            mark: mark_of(text.as_str().as_bytes()),
            text,
        }
    }

    /// The characters.
    #[inline(always)]
    pub fn as_str(&self) -> &str
        ensures { result.now ≡ self.now }
    {
        self.text.as_str()
    }

    /// An equal name, which shares the bytes.
    pub fn copy(&self) -> Result<Name, OutOfMemory>
        ensures { IfOk result (λ n. n ≡ self.now) }
    {
        Ok(Name {
            mark: self.mark,
            text: self.text.copy()?,
        })
    }

    /// Its first byte; 0 where it is empty.
    #[inline(always)]
    pub fn first(&self) -> u8
        ensures { result ≡ first_of self.now }
    {
        (self.mark % 256) as u8
    }

    /// Whether two names are the same.
    #[inline(always)]
    pub fn is(&self, other: &Name) -> bool
        ensures { MatchBool result (self.now ≡ other.now) (self.now ≢ other.now) }
    {
        self.mark == other.mark && (self.mark < LONG || self.as_str() == other.as_str())
    }
}

/// The mark of a name: its first seven bytes as the digits of a number, the first one as the last digit, and behind them its length, at most 8.
fn mark_of(name: &[u8]) -> u64
    ensures mark { result ≡ mark_of name.now }
    ensures bytes { AreBytes name.now }
{
    let mut mark = name.len().min(8) as u64;
    let mut at = 7;
    while at > 0 {
        at -= 1;
        mark = mark * 256 + byte_at(name, at) as u64;
    }
    mark
}

/// The byte at a place; 0 behind the last one.
fn byte_at(name: &[u8], at: usize) -> u8
    ensures { result ≡ slice_index name.now at }
{
    if at < name.len() { name[at] } else { 0 }
}
