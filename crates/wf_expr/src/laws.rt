// Laws of expressions and targets.
ghost use Rattle.wf_expr.specs.Parser.{ParserIsThem, TargetParserIsThem};
ghost use Rattle.wf_expr.specs.Parsing.{NotBoth, OneDerivation, OneExpression};
ghost use Rattle.wf_expr.specs.Targets.{NotTargetAndRefused, OneTarget};

use wf_span::tokens_are_one;

/// A text is one expression at most, its symbols are spelled in one way, and it is not both an expression and refused.
pub fn one_expression()
    ensures one { OneExpression }
    ensures derivation { OneDerivation }
    ensures apart { NotBoth }
{
    tokens_are_one();
}

/// A text is one target at most, and it is not both a target and refused.
pub fn one_target()
    ensures one { OneTarget }
    ensures apart { NotTargetAndRefused }
{
    tokens_are_one();
}

/// Each text is an expression or has a first fault, and the parser of the definitions gives it; and so of targets.
pub fn parser_is_them()
    ensures expression { ParserIsThem }
    ensures target { TargetParserIsThem }
{}
