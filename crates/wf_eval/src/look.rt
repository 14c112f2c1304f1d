//! What an evaluation looks things up in.
ghost use Rattle.std.specs.Prelude.{◌≡◌, option_map};
ghost use Rattle.wf_ast.specs.Apply.{env_value};
ghost use Rattle.wf_value.specs.Maps.{value_at};
ghost use Rattle.wf_value.specs.Plain.{plain};
ghost use Rattle.wf_eval.specs.Sight.{seen};

use wf_name::Name;
use wf_value::Value;

/// The visible names, and the environment.
pub trait Look {
    ghost use Rattle.wf_eval.specs.Sight.{Sight};

    ghost sight: { Self → Sight };

    /// The value of a name, where the name is visible.
    fn look(&self, name: &Name) -> Option<&Value>
        ensures { option_map (λ v. plain v.now) result ≡ value_at name.now (sight self.now).names };

    /// The value of a key of the environment. The id of the execution has a key of its own.
    fn env(&self, key: &str) -> Option<&str>
        ensures { option_map (λ t. t.now) result ≡ env_value (seen (sight self.now) 0) key.now };
}
