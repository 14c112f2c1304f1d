// Laws of visits: what their bytes come to, and what an engine makes of them.
ghost use Rattle.wf_deeds.specs.Taking.{JudgedIsHeard, TurnReplies, VisitGoesOn};
ghost use Rattle.wf_deeds.specs.Verdicts.{ThereIsAnOutside};
ghost use Rattle.wf_deeds.specs.VerdictRows.{CrowdedIs429, BadIs400, LargeIs413, StrangeIs404, QueryIsCut, NamelessIs405, OtherIs405, FullIs429, RoomyArrives, BodyIs429};

use crate::laws_of_steps;
use wf_http_serve::{each_visit_has_a_state, visits_have_one_state};

/// Carries a law: there is the meaning of the bytes of visits that the rules on visits speak of.
pub fn there_is_an_outside()
    ensures { ThereIsAnOutside }
{
    visits_have_one_state();
    each_visit_has_a_state();
}

/// Carries laws: what an engine makes of a visit by its verdict is what the rules ask, and so is a turn with the reply behind it.
pub fn laws_of_visits()
    ensures heard { JudgedIsHeard }
    ensures visit { VisitGoesOn }
    ensures reply { TurnReplies }
{
    laws_of_steps();
}

/// Worked verdicts on visits.
pub fn worked_verdicts()
    ensures crowded { CrowdedIs429 }
    ensures bad { BadIs400 }
    ensures large { LargeIs413 }
    ensures strange { StrangeIs404 }
    ensures query { QueryIsCut }
    ensures nameless { NamelessIs405 }
    ensures other { OtherIs405 }
    ensures full { FullIs429 }
    ensures body { BodyIs429 }
    ensures arrives { RoomyArrives }
{}
