// Refusals of the YAML subset, and which of two speaks.
ghost use Rattle.std.specs.Prelude.{◌≡◌, Some};
ghost use Rattle.wf_yaml_line.specs.Fault as faults;
ghost use Rattle.wf_yaml_line.specs.Fault.{noted, both, kept};

use std::alloc::AllocError;
use wf_value::OutOfMemory;

/// Why a line is refused. In one line the first of them in this order speaks.
#[derive(Clone, Copy, Drop)]
pub enum Kind {
    /// A tab stands in the indentation of a line that isn't blank.
    Tab,
    /// The indentation fits no open block.
    Indentation,
    /// A key stands twice in one map.
    DoubleKey,
    /// A node starts with `&` or `*`.
    Anchor,
    /// A node starts with `!`.
    Tag,
    /// A flow collection is open, or has anything but items, pairs and commas.
    Flow,
    /// A quote is open, an escape is none, or text stands behind the closing quote.
    Quote,
    /// A plain scalar is a number, but no whole number of 64 bits.
    Decimal,
    /// YAML that the subset leaves out.
    Unsupported,
    /// Lists and maps nest deeper than 100.
    TooDeep,
}

/// A refusal.
#[derive(Clone, Copy, Drop)]
pub struct Fault {
    /// The line's number, from 1.
    pub line: u32,
    /// Why the line is refused.
    pub kind: Kind,
}

/// Why there is no tree.
#[derive(Clone, Copy, Drop)]
pub enum YamlFault {
    /// The source is refused.
    Refused(Fault),
    /// There is no memory.
    OutOfMemory,
}

impl From<OutOfMemory> for YamlFault {
    ghost use Rattle.wf_yaml_line.specs.declared.fault.YamlFault.TheVariants.{OutOfMemory};
    ghost use Rattle.std.specs.Prelude.{◌≡◌};

    ghost from_gives = { λ _ e. e ≡ OutOfMemory };

    fn from(_refused: OutOfMemory) -> YamlFault {
        YamlFault::OutOfMemory
    }
}

impl From<AllocError> for YamlFault {
    ghost use Rattle.wf_yaml_line.specs.declared.fault.YamlFault.TheVariants.{OutOfMemory};
    ghost use Rattle.std.specs.Prelude.{◌≡◌};

    ghost from_gives = { λ _ e. e ≡ OutOfMemory };

    fn from(_refused: AllocError) -> YamlFault {
        YamlFault::OutOfMemory
    }
}

/// Where a kind stands in the order.
fn rank(kind: Kind) -> u8
    ensures { result ≡ faults.rank kind }
{
    match kind {
        Kind::Tab => 1,
        Kind::Indentation => 2,
        Kind::DoubleKey => 3,
        Kind::Anchor => 4,
        Kind::Tag => 5,
        Kind::Flow => 6,
        Kind::Quote => 7,
        Kind::Decimal => 8,
        Kind::Unsupported => 9,
        Kind::TooDeep => 10,
    }
}

/// Of two refusals the one that speaks: that of the earlier line, and in one line the lower kind.
pub fn first_of_two(f: Fault, g: Fault) -> Fault
    ensures { result ≡ faults.first_of_two f g }
{
    if f.line < g.line || f.line == g.line && rank(f.kind) <= rank(g.kind) {
        f
    } else {
        g
    }
}

/// A refusal, where its sentence holds.
pub fn refuse_if(holds: bool, line: u32, kind: Kind) -> Option<Fault>
    ensures { noted result ≡ faults.refuse_if holds line kind }
{
    if holds {
        Some(Fault { line, kind })
    } else {
        None
    }
}

/// Of what was noted, if anything was, and another refusal the one that speaks.
pub fn least(f: Option<Fault>, g: Fault) -> Fault
    ensures { noted (Some result) ≡ both kept (noted f) (noted (Some g)) }
{
    match f {
        Some(f) => first_of_two(f, g),
        None => g,
    }
}

/// Of what was noted at two places the one that speaks, if anything was noted.
pub fn both_noted(f: Option<Fault>, g: Option<Fault>) -> Option<Fault>
    ensures { noted result ≡ both kept (noted f) (noted g) }
{
    match g {
        Some(g) => Some(least(f, g)),
        None => f,
    }
}
