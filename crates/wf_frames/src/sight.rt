// What a task sees when it evaluates.
ghost use Rattle.std.specs.Prelude.{◌≡◌, [], option_map};
ghost use Rattle.wf_ast.specs.Apply as meaning;
ghost use Rattle.wf_eval.specs.Sight as sight;
ghost use Rattle.wf_frames.specs.Owned.{Around, IsLinked, beside, own_of};
ghost use Rattle.wf_frames.specs.Sights.{Sees, sight_of};
ghost use Rattle.wf_model.specs.Layers.{view};
ghost use Rattle.wf_model.specs.Local.{Scene};

use crate::facts::Facts;
use crate::frames::Frames;
use crate::sighted::Seen;
use wf_scope::Scopes;

/// What a task sees: the names of its innermost layer and of those outside, and the environment.
#[inline(always)]
pub fn seen<'a>(frames: &Frames, scopes: &'a Scopes, facts: &'a Facts) -> Seen<'a>
    ghost around: { Around }
    requires { IsLinked around (own_of frames.now) scopes.now }
    ensures { (s : Scene) → Sees s facts.entry.now → view s (beside [] around frames.now scopes.now)
        ≡ sight.seen (sight_of result) facts.entry.now.now }
{
    Seen {
        scopes,
        layer: frames.layer(),
        facts,
    }
}
