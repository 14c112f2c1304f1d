// Laws of reading JSON into trees, over any source.
ghost use Rattle.std.specs.Prelude.{List, ℕ};
ghost use Rattle.wf_tree.specs.Decimals.{PathsLead};
ghost use Rattle.wf_tree.specs.JsonLaws.{OneHolds, NoTwoHold, OneTree, OnePath, AsValues, FindsTheTree};

/// Carries a law: any source is one of a tree, no JSON, JSON with a first decimal, and JSON that
/// nests too deep, and never two of these; it is one tree at most, and has one first decimal at
/// most. Where `read_json` tells a decimal, `from_json` of `wf_value` does.
pub fn reading_is_decided()
    ensures one { OneHolds }
    ensures apart { (b : List ℕ) → NoTwoHold b }
    ensures one_tree { OneTree }
    ensures one_path { OnePath }
    ensures as_values { AsValues }
{}

/// Carries a law: reading as a function, by which a definition speaks of a source's tree, gives a
/// tree exactly where the source is that tree.
pub fn reading_is_a_function()
    ensures { FindsTheTree }
{}

/// Carries a law: at the path of the first decimal of some JSON a decimal stands.
pub fn paths_lead_to_decimals()
    ensures { PathsLead }
{}
