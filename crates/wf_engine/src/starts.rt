// Laws of what an execution is started with.
ghost use Rattle.wf_engine.specs.Starts.{ArgumentComesBack, ArgumentIsSpelled};

use wf_json_laws::{said_values_come_back, texts_are_short, values_come_back};

/// Carries laws of the argument that a `run` starts an execution with, which is kept as the text that JSON writes of it: `main` is given
/// the value that the word of `--args` says, or null without the option; and a text of a value within the limit has a spelling in a
/// journal.
pub fn laws_of_starts()
    ensures comes_back { ArgumentComesBack }
    ensures spelled { ArgumentIsSpelled }
{
    said_values_come_back();
    texts_are_short();
    values_come_back();
}
