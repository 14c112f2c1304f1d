// Errors that go outward, to the nearest `try`.
ghost use Rattle.std.specs.Prelude.{◌≡◌, ◌≤◌, ◌<◌, [], IfNone, IfOk, IfSome, List, OnOk, length};
ghost use Rattle.wf_frames.specs.Fits.{Fits, IsTry, reach};
ghost use Rattle.wf_frames.specs.Frames.{body_try, inner};
ghost use Rattle.wf_frames.specs.Owned.{Around, IsLinked, beside, control_of, own_of};
ghost use Rattle.wf_frames.specs.Stands.{Stands};
ghost use Rattle.wf_frames.specs.Turns.{Agrees};
ghost use Rattle.wf_model.specs.Config.{Item};
ghost use Rattle.wf_model.specs.Local.{Scene};
ghost use Rattle.wf_model.specs.Unwind.{handled, unwind};
ghost use Rattle.wf_moves.specs.Retries.{Handler, TriedAt, caught, caught_at, tried_of};
ghost use Rattle.wf_model.specs.Spots.{owners_at, part_at, part_body};
ghost use Rattle.wf_model.specs.declared.node.Node.{Node};
ghost use Rattle.wf_model.specs.declared.node.TryNode as try_node;
ghost use Rattle.wf_frames.specs.Built.{IsTableOf};
ghost use Rattle.wf_value.specs.Data.{Data, depth};
ghost use Rattle.wf_value.specs.Plain.{plain};

use std::alloc::Global;
use wf_frames::{Frame, Frames, enter, leave, map_of, try_node};
use wf_model::{ExceptNode, Node};
use wf_scope::Scopes;
use wf_value::{OutOfMemory, Tag, Value};

/// A `try` whose body has raised an error: its node, the retries used, and the last delay in milliseconds.
#[derive(Clone, Copy)]
pub(crate) struct Tried {
    pub(crate) node: u32,
    pub(crate) tries: u64,
    pub(crate) delay: Option<u64>,
}

/// The `try` that a frame is, if it is one.
fn tried_of(frame: &Frame) -> Option<Tried>
    ensures { result ≡ tried_of frame.now }
{
    match frame {
        Frame::Try(trying) => Some(Tried {
            node: trying.node,
            tries: trying.tries,
            delay: trying.delay,
        }),
        Frame::Do(_, _) | Frame::Lone(_, _) | Frame::Entries(_, _) | Frame::Then(_) => None,
        Frame::Loop(_) | Frame::Mark(_) | Frame::Back(_, _) => None,
        Frame::Judge(_) => None,
    }
}

/// The frames inside the nearest `try` are left, and its own, or all.
pub(crate) fn leave_to_try(frames: &mut Frames, scopes: &mut Scopes) -> Option<Tried>
    ghost around: { Around }
    requires linked { IsLinked around (own_of frames.old) scopes.old }
    ensures linked { IsLinked around (own_of frames.new) scopes.new }
    ensures found { (s : Scene) (c : List Item) (e : Data)
        → unwind s (control_of around frames.old) (beside c around frames.old scopes.old) e
        ≡ caught_at around.spots result s e (control_of around frames.new)
        (beside c around frames.new scopes.new) }
    ensures at { (nodes : List Node) → Fits around.spots nodes (inner frames.old)
        → IfSome result (λ t. TriedAt around.spots nodes t (inner frames.new)) }
    ensures fits { (nodes : List Node) → Fits around.spots nodes (inner frames.old)
        → Fits around.spots nodes (inner frames.new) }
    ensures fewer { IfSome result (λ t. length (inner frames.new) < length (inner frames.old)) }
    ensures none { IfNone result (inner frames.new ≡ []) }
{
    while let Some(frame) = frames.top() {
        let found = tried_of(frame);
        leave(frames, scopes);
        if found.is_some() {
            return found;
        }
    }
    None
}

/// The steps that take the error of a `try` begin, in a layer with the error. Where the variables would pass their limit, that is the error.
fn handle(
    alloc: Global,
    nodes: &[Node],
    n: u32,
    except: &ExceptNode,
    frames: &mut Frames,
    scopes: &mut Scopes,
    error: Value,
) -> Result<Option<Value>, OutOfMemory>
    ghost around: { Around }
    requires tells { IsTableOf around.spots nodes.now }
    requires stands { Stands around nodes.now frames.old scopes.old }
    requires handler { (h : Handler nodes.now n) × (h.except ≡ except.now) }
    requires inside { owners_at around.spots n ≡ reach (inner frames.old) }
    ensures moved { IfOk result (λ o. (s : Scene) (c : List Item) → Agrees s around
        → handled s (plain error) (body_try (part_body (part_at around.spots n)))
        (control_of around frames.old) (beside c around frames.old scopes.old)
        (unwind s (control_of around frames.old) (beside c around frames.old scopes.old))
        ≡ caught o s (control_of around frames.new) (beside c around frames.new scopes.new)) }
    ensures same { IfOk result (λ o. IfSome o (λ e. inner frames.new ≡ inner frames.old)) }
    ensures shallow { IfOk result (λ o. IfSome o (λ e. depth (plain e) ≤ 100)) }
    ensures stands { OnOk result (Stands around nodes.now frames.new scopes.new) }
{
    match enter(frames, scopes, &except.name, error, &None, 0)? {
        Some(layer) => {
            frames.push(Frame::Mark(layer))?;
            frames.push(Frame::Do(n, 0))?;
            Ok(None)
        }
        None => Ok(Some(map_of(alloc, Tag::ResourceLimitError)?)),
    }
}

/// A `try` is through with an error: the steps that take it begin, or an error goes on outward, which is given.
pub(crate) fn take(
    alloc: Global,
    nodes: &[Node],
    n: u32,
    frames: &mut Frames,
    scopes: &mut Scopes,
    error: Value,
) -> Result<Option<Value>, OutOfMemory>
    ghost around: { Around }
    requires tells { IsTableOf around.spots nodes.now }
    requires stands { Stands around nodes.now frames.old scopes.old }
    requires tried { (t : try_node.TryNode) × IsTry nodes.now n t }
    requires inside { owners_at around.spots n ≡ reach (inner frames.old) }
    requires shallow { depth (plain error) ≤ 100 }
    ensures moved { IfOk result (λ o. (s : Scene) (c : List Item) → Agrees s around
        → handled s (plain error) (body_try (part_body (part_at around.spots n)))
        (control_of around frames.old) (beside c around frames.old scopes.old)
        (unwind s (control_of around frames.old) (beside c around frames.old scopes.old))
        ≡ caught o s (control_of around frames.new) (beside c around frames.new scopes.new)) }
    ensures same { IfOk result (λ o. IfSome o (λ e. inner frames.new ≡ inner frames.old)) }
    ensures shallow { IfOk result (λ o. IfSome o (λ e. depth (plain e) ≤ 100)) }
    ensures stands { OnOk result (Stands around nodes.now frames.new scopes.new) }
{
    let tried = try_node(nodes, n);
    match &tried.except {
        Some(except) => handle(alloc, nodes, n, except, frames, scopes, error),
        None => Ok(Some(error)),
    }
}
