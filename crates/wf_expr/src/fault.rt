// Why a text is no expression.
ghost use Rattle.std.specs.Prelude.{◌≡◌};
ghost use Rattle.wf_expr.specs.declared.fault.ExprFault.TheVariants as variant;

use wf_span::LexFault;
use wf_value::OutOfMemory;

/// Why a text is no expression. Places are offsets in bytes. TooLong speaks first, then Lex; of the others the one at
/// the first place speaks, and at one place Syntax.
#[derive(Debug, Clone, Copy, PartialEq, Eq)]
pub enum ExprFault {
    /// It has no tokens, for this fault. Want of memory isn't told so.
    Lex(LexFault),
    /// The place of the first token with which the tokens so far begin no expression, or the text's end.
    Syntax(u32),
    /// It has more than 400 characters.
    TooLong,
    /// The place of a number with a point, or of one past 9,223,372,036,854,775,807.
    Decimal(u32),
    /// The place of the name of a call that no function has which expressions may call.
    UnknownFunction(u32),
    /// The place of the name of a call with too few or too many arguments.
    Arity(u32),
    /// There is no memory.
    OutOfMemory,
}

impl From<OutOfMemory> for ExprFault {
    ghost from_gives = { λ _ e. e ≡ variant.OutOfMemory };

    fn from(_: OutOfMemory) -> Self {
        ExprFault::OutOfMemory
    }
}
