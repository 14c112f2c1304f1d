//! Laws of templates.
ghost use Rattle.wf_expr.specs.Templates.{TemplateIsIt};
ghost use Rattle.wf_expr.specs.Texts.{NotBothOf, OneTemplate};

use crate::one_expression;

/// A text is one template at most, and it is not both a template and refused.
pub fn one_template()
    ensures one { OneTemplate }
    ensures apart { NotBothOf }
{
    one_expression();
}

/// Each text is a template or has a first fault, and the definitions' function gives it.
pub fn template_is_it()
    ensures { TemplateIsIt }
{}
