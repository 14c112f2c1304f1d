// Names and the environment, as an evaluation looks them up.
ghost use Rattle.std.specs.Prelude.{◌≡◌, option_map};
ghost use Rattle.wf_ast.specs.Apply.{env_in};
ghost use Rattle.wf_scope.specs.Layers.{IsLive};
ghost use Rattle.wf_scope.specs.Store.{layers_of};

use crate::facts::Facts;
use wf_eval::Look;
use wf_name::Name;
use wf_scope::{Chain, Scopes};
use wf_value::{Text, Value};

/// The key of the environment under which the id stands.
const ID_KEY: &str = "GOOGLE_CLOUD_WORKFLOW_EXECUTION_ID";

/// The names that are seen from a layer, and the environment.
#[derive(Clone, Copy)]
pub struct Seen<'a> {
    pub(crate) scopes: &'a Scopes,
    pub(crate) layer: Chain,
    pub(crate) facts: &'a Facts,
    ghost live: { IsLive layer.number (layers_of scopes.now) },
}

impl Look for Seen<'_> {
    ghost use Rattle.wf_frames.specs.Sights.{sight_from};

    ghost sight = { λ s. sight_from s.scopes.now s.layer.number s.facts.now };

    #[inline(always)]
    fn look(&self, name: &Name) -> Option<&Value> {
        self.scopes.look(self.layer, name)
    }

    fn env(&self, key: &str) -> Option<&str> {
        if key == ID_KEY {
            return Some(self.facts.id.as_str());
        }
        find(self.facts.env.items(), key)
    }
}

/// The value of a key, in the first pair that has it.
#[tactic(auto, using(crate::proofs::Environment::none_in))]
fn find<'a>(pairs: &'a [(Text, Text)], key: &str) -> Option<&'a str>
    ensures { option_map (λ t. t.now) result ≡ env_in pairs.now key.now }
{
    let mut rest = pairs;
    while let [pair, more @ ..] = rest {
        if pair.0.as_str() == key {
            return Some(pair.1.as_str());
        }
        rest = more;
    }
    None
}
