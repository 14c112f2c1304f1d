// Reports of the execution that stands in the journal.
ghost use Rattle.std.specs.Prelude.{◌≡◌, ◌<◌, true, ℕ, List, Ok, IfOk, IsErrOf, string_bytes, ◌∷◌, []};
ghost use Rattle.wf_args.specs.Lines.{line_of, word_of};
ghost use Rattle.wf_args.specs.Plain.{plain_line};
ghost use Rattle.wf_args.specs.declared.option.OptionName.TheVariants.{Grep};
ghost use Rattle.wf_cli.specs.Said.{IsEnd, ReadsJournal, SaysTelling, Worked, text_by};
ghost use Rattle.wf_engine.specs.Printed.{tells_history};
ghost use Rattle.wf_engine.specs.Safe.{scene};
ghost use Rattle.wf_engine.specs.TheOutside.{InTheOutside};
ghost use Rattle.wf_host.specs.Calls.{DiskFailed, NoCountFalls, OnlyErrorsOr, TellsAsBefore};
ghost use Rattle.wf_host.specs.Source.{Rest};
ghost use Rattle.wf_host.specs.World.{Told};
ghost use Rattle.wf_machine.specs.Seen.{state_of};

use crate::end::{Said, Silence};
use std::alloc::Global;
use std::marker::Brand;
use std::sync::ledger::{Blank, Ledger};
use wf_args::{Command, Line};
use wf_deeds::{laws_of_moments, laws_of_rules};
use wf_engine::EngineFault;
use wf_host::Host;
use wf_machine::{Machine, Steps};
use wf_report::{last_state, log_lines, show, state_at};
use wf_value::OutOfMemory;

/// Tells of the execution that stands in the journal. Nothing is written, and no clock is read.
pub(crate) fn report<H: Host>(alloc: Global, line: &Line<'_>, host: &mut H) -> Result<Said, Silence>
    requires command { tells_history (plain_line line.now).command ≡ true }
    ensures end { (words : List (List ℕ)) (rest : Rest) (reads reads2 : ℕ)
        → line_of words ≡ Ok (plain_line line.now)
        → IsEnd (scene words rest (H.world host.old)) (H.world host.old) (H.world host.new) reads
        reads2 (H.faults host.old) (H.faults host.new) result }
    ensures worked { InTheOutside (λ O. Told (H.world host.old) ((words : List (List ℕ))
        (rest : Rest) → line_of words ≡ Ok (plain_line line.now)
        → Worked O (scene words rest (H.world host.old)) (H.world host.old) (H.world host.new)
        result)) }
    ensures tells { TellsAsBefore H.world host.old host.new }
    ensures counts { NoCountFalls H.faults host.old host.new }
{
    report_from_blank::<H, Brand>(alloc, line, host, Blank::new(1))
}

/// The same, counting the events of the journal on a ledger of its own.
fn report_from_blank<H: Host, L: Ledger>(
    alloc: Global,
    line: &Line<'_>,
    host: &mut H,
    blank: Blank,
) -> Result<Said, Silence>
    requires command { tells_history (plain_line line.now).command ≡ true }
    requires name { blank.name ≡ L.name }
    requires parts { blank.parts ≡ L.parts }
    requires some { 0 < blank.parts }
    ensures end { (words : List (List ℕ)) (rest : Rest) (reads reads2 : ℕ)
        → line_of words ≡ Ok (plain_line line.now)
        → IsEnd (scene words rest (H.world host.old)) (H.world host.old) (H.world host.new) reads
        reads2 (H.faults host.old) (H.faults host.new) result }
    ensures worked { InTheOutside (λ O. Told (H.world host.old) ((words : List (List ℕ))
        (rest : Rest) → line_of words ≡ Ok (plain_line line.now)
        → Worked O (scene words rest (H.world host.old)) (H.world host.old) (H.world host.new)
        result)) }
    ensures tells { TellsAsBefore H.world host.old host.new }
    ensures counts { NoCountFalls H.faults host.old host.new }
{
    report_counted(alloc, line, host, &mut Steps::<L>::new(blank))
}

/// The same, counting the events of the journal.
fn report_counted<H: Host, L: Ledger>(
    alloc: Global,
    line: &Line<'_>,
    host: &mut H,
    steps: &mut Steps<L>,
) -> Result<Said, Silence>
    requires command { tells_history (plain_line line.now).command ≡ true }
    ensures end { (words : List (List ℕ)) (rest : Rest) (reads reads2 : ℕ)
        → line_of words ≡ Ok (plain_line line.now)
        → IsEnd (scene words rest (H.world host.old)) (H.world host.old) (H.world host.new) reads
        reads2 (H.faults host.old) (H.faults host.new) result }
    ensures worked { InTheOutside (λ O. Told (H.world host.old) ((words : List (List ℕ))
        (rest : Rest) → line_of words ≡ Ok (plain_line line.now)
        → Worked O (scene words rest (H.world host.old)) (H.world host.old) (H.world host.new)
        result)) }
    ensures tells { TellsAsBefore H.world host.old host.new }
    ensures counts { NoCountFalls H.faults host.old host.new }
{
    // laws that the proof uses
    laws_of_moments();
    laws_of_rules();
    let told = text_for(alloc, line, host, steps);
    said_of(alloc, told)
}

/// What is said of a history that was read, or why nothing is told of it.
fn said_of(alloc: Global, told: Result<String, EngineFault>) -> Result<Said, Silence>
    ensures { SaysTelling told result }
{
    match told {
        Ok(text) => Ok(Said::report(alloc, text.as_str())?),
        Err(fault) => Said::of_fault(alloc, fault),
    }
}

/// The text that is told of the journal's history.
fn text_for<H: Host, L: Ledger>(
    alloc: Global,
    line: &Line<'_>,
    host: &mut H,
    steps: &mut Steps<L>,
) -> Result<String, EngineFault>
    requires command { tells_history (plain_line line.now).command ≡ true }
    ensures reads { Told (H.world host.old)
        (ReadsJournal (plain_line line.now) (H.world host.old) (H.world host.new) result) }
    ensures disk_fault { IsErrOf result EngineFault.DiskFault
        → DiskFailed H.faults host.old host.new }
    ensures only { OnlyErrorsOr EngineFault.NotAHistory result (EngineFault.DiskFault ∷
        EngineFault.NotAJournal ∷ EngineFault.NotStarted ∷ EngineFault.OutOfMemory ∷ []) }
    ensures tells { TellsAsBefore H.world host.old host.new }
    ensures counts { NoCountFalls H.faults host.old host.new }
{
    match line.command() {
        Command::At => state_at(alloc, host, u64::from(line.turn()), steps),
        _ => {
            let machine = last_state(alloc, host, steps)?;
            Ok(text_of_state(alloc, line, &machine)?)
        }
    }
}

/// What `show` and `log` tell of a history that leads to this machine.
fn text_of_state(alloc: Global, line: &Line<'_>, machine: &Machine) -> Result<String, OutOfMemory>
    ensures { IfOk result (λ text. string_bytes text
        ≡ text_by (plain_line line.now).command (word_of Grep (plain_line line.now))
        (state_of machine.now).config) }
{
    match line.command() {
        Command::Log => log_lines(alloc, machine, line.grep()),
        _ => show(alloc, machine.id(), machine),
    }
}
