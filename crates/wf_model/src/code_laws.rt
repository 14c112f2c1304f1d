//! A law: it does nothing, and its contract is the law.
ghost use Rattle.wf_ast.specs.Tree.{Expr};
ghost use Rattle.wf_model.specs.Decoded.{decode};
ghost use Rattle.wf_ast.specs.Machine.{code};
ghost use Rattle.std.specs.Prelude.{◌≡◌};

/// The code of an expression is the code of that expression alone, and `decode` reads it back.
#[tactic(auto, using(crate::proofs::Decoding::decoded_code))]
pub fn codes_decode()
    ensures { (e : Expr) → decode (code e) ≡ e }
{}
