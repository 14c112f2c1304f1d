// Which event a move wants.
ghost use Rattle.std.specs.Prelude.{◌≡◌, List, Some, option_map, slice_get};
ghost use Rattle.wf_ast.specs.Tree.{Program};
ghost use Rattle.wf_frames.specs.Built.{IsTableOf};
ghost use Rattle.wf_frames.specs.Fits.{Fits};
ghost use Rattle.wf_frames.specs.Foreseen.{next_by};
ghost use Rattle.wf_frames.specs.Frames.{control};
ghost use Rattle.wf_frames.specs.declared.frames.Frame.{Frame};
ghost use Rattle.wf_frames.specs.Kinds.{AreWants, kind_view, wants_view};
ghost use Rattle.wf_model.specs.Kinds.{NextKind, next_kind};
ghost use Rattle.wf_model.specs.Spots.{Spot};
ghost use Rattle.wf_model.specs.declared.node.Node.{Node};

use crate::Next;

/// The event that a move wants: a plain one, one with a reading of the clock, or one that makes a request.
#[derive(Debug, Clone, Copy, PartialEq, Eq)]
pub enum Kind {
    Plain,
    Clock,
    Call,
}

/// What a node wants.
#[derive(Clone, Copy)]
pub struct Wants {
    /// As a step.
    pub body: Kind,
    /// As an entry of an assign.
    pub entry: Kind,
}

/// What the node of this number wants as a step.
fn body_at(wants: &[Wants], n: u32) -> Kind
    ensures { (k : NextKind) (q : NextKind) → option_map wants_view (slice_get wants.now n)
        ≡ Some (k, q) → kind_view result ≡ k }
{
    match wants.get(n as usize) {
        Some(wants) => wants.body,
        None => Kind::Plain,
    }
}

/// What the node of this number wants as an entry.
fn entry_at(wants: &[Wants], n: u32) -> Kind
    ensures { (k : NextKind) (q : NextKind) → option_map wants_view (slice_get wants.now n)
        ≡ Some (k, q) → kind_view result ≡ q }
{
    match wants.get(n as usize) {
        Some(wants) => wants.entry,
        None => Kind::Plain,
    }
}

/// The event that a move wants, by what the innermost frame does next. `wants` has what each node wants.
#[inline(always)]
pub fn next_kind(wants: &[Wants], next: Next) -> Kind
    ensures { (p : Program) (ns : List Spot) (nodes : List Node) (fs : List Frame)
        → IsTableOf ns nodes → Fits ns nodes fs → next ≡ next_by nodes fs
        → AreWants p ns nodes wants.now → kind_view result ≡ next_kind p (control ns fs) }
{
    match next {
        Next::Body(n) => body_at(wants, n),
        Next::Entry(n) => entry_at(wants, n),
        _ => Kind::Plain,
    }
}
