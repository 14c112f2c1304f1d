// Why a tree is no program.
use wf_expr::ExprFault;
use wf_value::Path;

/// A rule of the syntax that a tree breaks.
#[derive(Debug, Clone, Copy, PartialEq, Eq)]
pub enum SyntaxKind {
    /// An item of a list of steps or branches is no map of one key, or a step's key is empty, `end`, `break` or
    /// `continue`.
    NotAStep,
    /// A map of the language has a key that its form doesn't have. So has a body of two forms, `return` or `raise` with
    /// `next` beside it, a `for` with both `in` and `range`, and a `parallel` with both `branches` and `for`.
    UnknownField,
    /// A field isn't there that its form must have.
    MissingField,
    /// A field has a kind of tree, a name, a number or a word that its form doesn't allow.
    WrongKind,
    /// An expression of a text, or a key that is assigned, isn't one, for this fault.
    Expression(ExprFault),
}

/// Why a tree is no program: the first rule that it breaks, in preorder, with the path of the node; or there is no
/// memory to build it.
#[derive(Drop)]
pub enum SyntaxFault {
    Refused(SyntaxKind, Path),
    OutOfMemory,
}
