//! Reads a source of the YAML subset into a tree: its lines, block lists and maps, block scalars,
//! and the marks of a document.
#![tactic(auto)]

ghost use Rattle.std.specs.Prelude.{◌≡◌, ◌<◌, ◌≤◌, length, Ok, Err, IfOk};
ghost use Rattle.wf_tree.specs.Trees.{depth};
ghost use Rattle.wf_tree.specs.Plain.{plain_tree};
ghost use Rattle.wf_yaml.specs.Reading.{reading};
ghost use Rattle.wf_yaml.specs.Answers.{IfRefused};

mod block_scalars;
mod blocks;
mod cuts;
mod deep;
mod laws;
mod rows;
mod scalars;
mod source;
mod starts;

pub use crate::laws::reading_is_a_relation;
use crate::source::read_source;
use std::alloc::Global;
use wf_tree::Tree;
pub use wf_yaml_line::{Fault, Kind, YamlFault};

/// The tree of a source of fewer than 4,294,967,296 bytes, or its first fault: that of the earliest
/// line, and in one line the lowest kind. Lists and maps nest at most 100 deep. Want of memory says
/// nothing of the source.
#[tactic(auto, unfolding(crate::specs::Reading::reading))]
pub fn read_yaml(alloc: Global, src: &str) -> Result<Tree, YamlFault>
    requires { length src.now < 4294967296 }
    ensures tree { IfOk result (λ t. reading src.now ≡ Ok (plain_tree t)) }
    ensures depth { IfOk result (λ t. depth (plain_tree t) ≤ 100) }
    ensures fault { IfRefused result (λ f. reading src.now ≡ Err f) }
{
    read_source(alloc, src)
}
