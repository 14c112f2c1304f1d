// The tree and the program of a source in JSON.
use std::alloc::Global;
use wf_ast::Program;
use wf_cases::CaseFault;
use wf_syntax::build;
use wf_tree::{PairsSoFar, Tree, TreeFault, TreeList, read_json};
use wf_value::Text;

/// No source of a table with decimals is deeper.
const LEVELS: u32 = 20;

/// The tree of a source in JSON, which must have one.
pub(crate) fn tree_of(alloc: Global, source: &str) -> Result<Tree, CaseFault> {
    match read_json(alloc, source) {
        Ok(tree) => Ok(tree),
        Err(TreeFault::OutOfMemory) => Err(CaseFault::OutOfMemory),
        Err(_) => Err(CaseFault::NoCase),
    }
}

/// The program of a source in JSON, which must be one.
pub(crate) fn program_of(alloc: Global, source: &str) -> Result<Program, CaseFault> {
    match build(alloc, &tree_of(alloc, source)?) {
        Ok(program) => Ok(program),
        Err(_) => Err(CaseFault::NoCase),
    }
}

/// The tree with a decimal in place of each text that begins with `#`.
pub(crate) fn tree_with_decimals(alloc: Global, source: &str) -> Result<Tree, CaseFault> {
    with_decimals(alloc, &tree_of(alloc, source)?, LEVELS)
}

fn with_decimals(alloc: Global, tree: &Tree, levels: u32) -> Result<Tree, CaseFault> {
    if levels == 0 {
        return Err(CaseFault::NoCase);
    }
    match tree {
        Tree::Null => Ok(Tree::Null),
        Tree::Bool(b) => Ok(Tree::Bool(*b)),
        Tree::Int(n) => Ok(Tree::Int(*n)),
        Tree::Decimal(digits) => Ok(Tree::Decimal(digits.copy()?)),
        Tree::Text(text) => match text.as_str().strip_prefix("#") {
            Some(digits) => Ok(Tree::Decimal(Text::new(alloc, digits)?)),
            None => Ok(Tree::Text(text.copy()?)),
        },
        Tree::List(items) => {
            let mut made = TreeList::new(alloc)?;
            for item in items.items() {
                made.push(with_decimals(alloc, item, levels - 1)?)?;
            }
            Ok(Tree::List(made))
        }
        Tree::Map(fields) => {
            let mut made = PairsSoFar::new(alloc)?;
            for pair in fields.pairs() {
                made.insert(pair.0.copy()?, with_decimals(alloc, &pair.1, levels - 1)?)?;
            }
            Ok(Tree::Map(made.into_map()?))
        }
    }
}
