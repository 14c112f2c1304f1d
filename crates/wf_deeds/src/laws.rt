// Laws of the rules on deeds.
ghost use Rattle.wf_deeds.specs.Clauses.{StandsIsKept};
ghost use Rattle.wf_deeds.specs.Rules.{DeedKeepsRules, EndKeepsRules, HandedKeepsRules, TurnKeepsRules};
ghost use Rattle.wf_deeds.specs.Steps.{DropGoesOn, EndIsKept, FreshStands, HandedStands, HearingGoesOn, HearingLeadsOn, PollIsKept, PrintGoesOn, ReplyGoesOn, StartGoesOn, TurnGoesOn, TurnIsChosen, TurnLeadsOn};
ghost use Rattle.wf_deeds.specs.Laws.{OnlyReadings};

use crate::{laws_of_histories, laws_of_moments};
use wf_http_in::{none_at_first, one_answer};
use wf_model::{laws_of_calls, laws_of_choice, laws_of_readings, laws_of_runs};

/// Carries the law of the beginning of a session: where nothing was sent or awaited, and no turn of the session stands yet, only the rule
/// on readings asks something.
pub fn laws_of_rules()
    ensures only_readings { OnlyReadings }
{}

/// Carries laws of the rules: they are kept with one deed more, one turn more, and an end.
pub fn laws_of_deeds()
    ensures deed { DeedKeepsRules }
    ensures turn { TurnKeepsRules }
    ensures end { EndKeepsRules }
    ensures handed { HandedKeepsRules }
{
    laws_of_moments();
}

/// Carries laws of what an engine stands for: at first, with a call started or dropped, with what was heard, with a turn, with a reply,
/// with a print, and at an end.
pub fn laws_of_steps()
    ensures fresh { FreshStands }
    ensures start { StartGoesOn }
    ensures drop { DropGoesOn }
    ensures poll { PollIsKept }
    ensures hearing { HearingGoesOn }
    ensures turn { TurnGoesOn }
    ensures chosen { TurnIsChosen }
    ensures turn_leads { TurnLeadsOn }
    ensures hearing_leads { HearingLeadsOn }
    ensures reply { ReplyGoesOn }
    ensures print { PrintGoesOn }
    ensures end { EndIsKept }
    ensures handed { HandedStands }
    ensures moment { StandsIsKept }
{
    none_at_first();
    one_answer();
    laws_of_deeds();
    laws_of_moments();
    laws_of_histories();
    laws_of_runs();
    laws_of_calls();
    laws_of_choice();
    laws_of_readings();
}
