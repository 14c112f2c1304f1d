//! Expressions and targets: their symbols and their grammar, and how a text is read as one.
#![tactic(auto)]

mod callee;
mod fault;
mod functions;
mod kind;
mod laws;
mod leaves;
mod lexed;
mod parser;
mod piece;
mod quoting;
mod role;
mod said;
mod scan;
mod source;
mod split;
mod stop;
mod symbol;
mod target;
mod template;
mod template_laws;
mod words;

pub use fault::ExprFault;
pub use laws::{one_expression, one_target, parser_is_them};
pub use source::parse;
pub use target::parse_target;
pub use template::{has_expressions, parse_template};
pub use template_laws::{one_template, template_is_it};
