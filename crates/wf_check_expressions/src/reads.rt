// The names that expressions read, and whether a visible layer has them.
ghost use Rattle.std.specs.Prelude.{◌≡◌, map};
ghost use Rattle.std.specs.List.{list_all};
ghost use Rattle.wf_ast.specs.Accept.{is_visible};
ghost use Rattle.wf_ast.specs.Reads.{expr_reads, exprs_read};
ghost use Rattle.wf_ast.specs.Tree.{exprs};
ghost use Rattle.wf_ast.specs.View.{expr_view};
ghost use Rattle.wf_symbols.specs.Around.{layer_view};

use wf_ast::Expr;
use wf_symbols::{Layer, is_visible};

/// Each name that the expression reads is visible.
#[cycle(expr)]
pub(crate) fn sees_expr(e: &Expr, layers: &[Layer]) -> bool
    ensures { result ≡ list_all (λ x. is_visible x (map layer_view layers.now))
        (expr_reads (expr_view e.now)) }
{
    match e {
        Expr::Lit(_) => true,
        Expr::Name(name) => is_visible(name.as_str(), layers),
        Expr::Neg(a) | Expr::Not(a) | Expr::Key(a, _) => sees_expr(a, layers),
        Expr::And(a, b) | Expr::Or(a, b) | Expr::Bin(_, a, b) | Expr::Index(a, b) => {
            sees_expr(a, layers) && sees_expr(b, layers)
        }
        Expr::Call(_, arguments) => sees_exprs(arguments.items(), layers),
    }
}

#[cycle(expr)]
fn sees_exprs(es: &[Expr], layers: &[Layer]) -> bool
    ensures { result ≡ list_all (λ x. is_visible x (map layer_view layers.now))
        (exprs_read (exprs (map expr_view es.now))) }
{
    for e in es {
        if !sees_expr(e, layers) {
            return false;
        }
    }
    true
}
