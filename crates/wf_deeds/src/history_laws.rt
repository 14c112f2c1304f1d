// Laws of histories.
ghost use Rattle.wf_deeds.specs.FirstFormat.{FirstFormatStays};
ghost use Rattle.wf_deeds.specs.FormatRows.{WorkedFormats};
ghost use Rattle.wf_deeds.specs.HistoryLaws.{ComputedIsHistory, HistoryIsComputed, NumberIsLeast, StartIsAHistory, RecordGoesOn, RecordsGoOn, FrontIsAHistory, HistoryOpens, HistoryPlays, PlayedIsHistory};
ghost use Rattle.wf_deeds.specs.Moments.{TurnIsAdded, SessionBeforeStays, MomentBeforeStays, TurnIsOfItsSession, NextBehindTurn, HistoryStandsThere, NextBehindHistory, HistoryStandsBefore, NoTurnsBehind, NumberIsCount, SessionIsNumbered};

use wf_model::{laws_of_runs, laws_of_turns};

/// Carries laws: the history that is computed record by record is the one that is told by its facts, its number is the least, an accepted
/// start is a history, records that go on make it longer, and its front is one. It opens, and it plays; what plays is one. Over
/// records of the first format it is a start and turns, as before there was a second.
pub fn laws_of_histories()
    ensures computed { ComputedIsHistory }
    ensures complete { HistoryIsComputed }
    ensures least { NumberIsLeast }
    ensures start { StartIsAHistory }
    ensures record_goes_on { RecordGoesOn }
    ensures records_go_on { RecordsGoOn }
    ensures front { FrontIsAHistory }
    ensures opens { HistoryOpens }
    ensures plays { HistoryPlays }
    ensures played { PlayedIsHistory }
    ensures first_format { FirstFormatStays }
{
    laws_of_runs();
}

/// Carries laws of a journal with one turn more: it stands behind the others and changes nothing before its own moment. And of a history:
/// from its last turn on the configuration is the one to which it leads, before each later session too, which has no turn yet; its number
/// is the count of its records, and the session of its last turn is less than that.
pub fn laws_of_moments()
    ensures turn_is_added { TurnIsAdded }
    ensures session_before_stays { SessionBeforeStays }
    ensures moment_before_stays { MomentBeforeStays }
    ensures turn_is_of_its_session { TurnIsOfItsSession }
    ensures next_behind_turn { NextBehindTurn }
    ensures history_stands_there { HistoryStandsThere }
    ensures next_behind_history { NextBehindHistory }
    ensures stands_before { HistoryStandsBefore }
    ensures no_turns_behind { NoTurnsBehind }
    ensures number_is_count { NumberIsCount }
    ensures session_is_numbered { SessionIsNumbered }
{
    laws_of_turns();
    laws_of_histories();
}

/// Worked histories of both formats.
pub fn worked_formats()
    ensures { WorkedFormats }
{}
