// The law of lives.
ghost use Rattle.wf_lives.specs.Lives.{PairsAreStays, OneRequest, ClosedIsNotStarted, FilesStayFit, RecordsStay, OneLine, PrintsByACause, PrintsOneLine};

use wf_deeds::laws_of_histories;
use wf_host::Host;
use wf_model::laws_of_runs;

/// Carries laws of lives, which are lists of commands, each on what the one before left, also where it was ended by a crash: each file
/// that is left may be gone on with, no record is lost, a call that is closed isn't started again, a call has one request, an outcome
/// has one line, what was printed of outcomes are fronts of that line, and nothing is printed without a cause.
pub fn law_of_lives()
    ensures files_stay_fit { FilesStayFit }
    ensures records_stay { RecordsStay }
    ensures one_line { OneLine }
    ensures prints_by_a_cause { PrintsByACause }
    ensures prints_one_line { PrintsOneLine }
    ensures one_request { OneRequest }
    ensures closed { ClosedIsNotStarted }
{
    laws_of_runs();
    laws_of_histories();
}

/// Carries the law that what a moment of a command may leave is a stay of a life, where the disk read and crashed to one image when the
/// command began.
pub fn law_of_stays<H: Host>(host: &H)
    ensures { PairsAreStays (H.world host.now) }
{
    let _ = host;
}
