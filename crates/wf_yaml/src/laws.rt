// Laws of reading, over any source.
ghost use Rattle.wf_yaml.specs.Relation.{TreesAreRead, NodesAreRead, OneTreeAtMost};

/// Carries a law: reading as a function gives a tree exactly where the source is that tree, and so
/// it does for the lines of each node. A source is one tree at most.
pub fn reading_is_a_relation()
    ensures trees { TreesAreRead }
    ensures nodes { NodesAreRead }
    ensures one_tree { OneTreeAtMost }
{}
