// A function, and how many arguments it takes.
use wf_ast::Func;

#[derive(Clone, Copy)]
pub(crate) struct Callee {
    pub(crate) func: Func,
    pub(crate) least: usize,
    pub(crate) most: usize,
}
