//! How a command ends: with the outcome of its execution, where its polls bring something.
#![tactic(auto)]

ghost use Rattle.wf_args.specs.Lines.{words_view};
ghost use Rattle.wf_cli.specs.Calls.{called};
ghost use Rattle.wf_ends.specs.Finishes.{EndsWithTheOutcome, Finishes};
ghost use Rattle.wf_ends.specs.Pauses.{PausesAreIdle};
ghost use Rattle.wf_host.specs.World.{Told};
ghost use Rattle.wf_replay.specs.TheLanguage.{the_language};

use std::alloc::Global;
use wf_cli::run_line;
use wf_deeds::{laws_of_histories, laws_of_waiting};
use wf_host::{Host, Source};
use wf_status::Status;

/// Carries a law: a command is suspended only where its polls were idle, but for few.
pub fn laws_of_pauses()
    ensures idly { PausesAreIdle }
{
    laws_of_histories();
    laws_of_waiting();
}

/// The top call: where no cause of another status holds and its polls bring something, it ends with the outcome of a run.
pub fn run_to_the_end<S: Source, H: Host>(
    alloc: Global,
    words: &[String],
    source: &mut S,
    host: &mut H,
) -> Status
    ensures finishes { Told (H.world host.old) (Finishes the_language
        (called (words_view words.now) (S.left source.old) (H.world host.old) (H.world host.new)
        (S.faults source.old) (S.faults source.new) (H.faults host.old) (H.faults host.new) result)) }
    ensures outcome { EndsWithTheOutcome
        (called (words_view words.now) (S.left source.old) (H.world host.old) (H.world host.new)
        (S.faults source.old) (S.faults source.new) (H.faults host.old) (H.faults host.new) result) }
{
    laws_of_histories();
    laws_of_pauses();
    run_line(alloc, words, source, host)
}
