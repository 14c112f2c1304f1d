// Executions, from their start or from what stands in a journal, to their outcome.
ghost use Rattle.std.specs.Prelude.{◌≡◌, ◌≤◌, ◌<◌, ◌∷◌, false, ℕ, List, Ok, IfOk, IsErrOf, IsUtf8, codes, decimal, length, map, unwrap_or};
ghost use Rattle.wf_check.specs.Seen.{program_of};
ghost use Rattle.wf_cli.specs.Said.{Going, IsEnd, Opening, SaysResult, Worked};
ghost use Rattle.wf_cli.specs.Top.{IsLineOf};
ghost use Rattle.wf_deeds.specs.Kept as kept;
ghost use Rattle.wf_deeds.specs.Memory.{StandsFor};
ghost use Rattle.wf_engine.specs.Engine.{memory, is_closed, Holds};
ghost use Rattle.wf_engine.specs.Safe.{scene};
ghost use Rattle.wf_engine.specs.Starts.{HasArgument, argument_text, kept_routes, start_of};
ghost use Rattle.wf_engine.specs.TheOutside.{InTheOutside};
ghost use Rattle.wf_events.specs.Spelling.{record_bytes, route, HasSpelling, IsPair, IsRoute};
ghost use Rattle.wf_events.specs.View.{route_view, start_view};
ghost use Rattle.wf_history.specs.Kinds.{first_record};
ghost use Rattle.wf_host.specs.Source.{Rest, IsFirst};
ghost use Rattle.wf_host.specs.Calls.{DiskFailed, NoCountFalls, TellsAsBefore};
ghost use Rattle.wf_host.specs.World.{Told};
ghost use Rattle.wf_host.specs.declared.data.Deed.{Deed};
ghost use Rattle.wf_journal.specs.Records.{records};
ghost use Rattle.wf_args.specs.Lines.{env_of, line_of, word_of};
ghost use Rattle.wf_args.specs.Plain.{plain_line};
ghost use Rattle.wf_args.specs.declared.command.Command.TheVariants.{Run, Resume};
ghost use Rattle.wf_args.specs.declared.option.OptionName.TheVariants.{Id};
ghost use Rattle.wf_record_parts.specs.Spelling.{Each, listed, pair};
ghost use Rattle.wf_replay.specs.TheLanguage.{the_language};
ghost use Rattle.wf_source.specs.Programs.{IsSourceOf};

use crate::argument::read_argument;
use crate::end::{Said, Silence};
use std::alloc::Global;
use std::marker::Brand;
use std::sync::ledger::{Blank, Ledger};
use wf_args::Line;
use wf_check::Checked;
use wf_deeds::{laws_of_histories, laws_of_moments, laws_of_rules, laws_of_steps};
use wf_engine::{Engine, EngineFault, laws_of_starts};
use wf_events::{Start, one_spelling};
use wf_host::{Address, Host, Routes, Source, read_up_to};
use wf_machine::Steps;
use wf_source::{SOURCE_LIMIT, each_source_is_one, laws_of_sources, read_source};
use wf_value::{Bytes, OutOfMemory, Pairs, Text};

/// A text of these characters, which are told to be UTF-8.
fn utf8_text(alloc: Global, text: &str) -> Result<Text, OutOfMemory>
    ensures same { IfOk result (λ t. t ≡ text.now) }
    ensures utf8 { IfOk result (λ t. IsUtf8 t) }
{
    let _bytes = text.as_bytes();
    Text::new(alloc, text)
}

/// The id of an execution: the line's, or else `w` and the first reading of the clock in decimal.
fn id_for(alloc: Global, line: &Line<'_>, reading: u64) -> Result<Text, OutOfMemory>
    ensures id { IfOk result (λ t. t ≡ unwrap_or (word_of Id (plain_line line.now))
        (119 ∷ decimal reading)) }
    ensures text { IfOk result (λ t. IsUtf8 t) }
    ensures short { IfOk result (λ t. length t ≤ 64) }
{
    if let Some(id) = line.id() {
        return utf8_text(alloc, id);
    }
    let id = format!(in alloc; "w{reading}")?;
    utf8_text(alloc, id.as_str())
}

/// The routes of the line, in order.
fn routes_for(alloc: Global, line: &Line<'_>) -> Result<Routes, OutOfMemory>
    ensures same { IfOk result (λ r. map route_view r ≡ kept_routes (plain_line line.now)) }
    ensures spelled { IfOk result (λ r. Each IsRoute (map route_view r)) }
    ensures short { IfOk result (λ r. length (listed route (map route_view r)) ≤ 1310924) }
{
    let mut routes = Routes::new(alloc);
    let mut index = 0;
    while let Some(parts) = line.route(index) {
        let to = Address {
            name: utf8_text(alloc, parts.name)?,
            port: parts.port,
        };
        routes.push(utf8_text(alloc, parts.host)?, to)?;
        index += 1;
    }
    Ok(routes)
}

/// The environment of the line, in order.
fn env_for(alloc: Global, line: &Line<'_>) -> Result<Pairs, OutOfMemory>
    ensures same { IfOk result (λ p. p ≡ env_of (plain_line line.now)) }
    ensures spelled { IfOk result (λ p. Each IsPair p) }
    ensures short { IfOk result (λ p. length (listed pair p) ≤ 1310864) }
{
    let mut env = Pairs::new(alloc);
    let mut index = 0;
    while let Some(parts) = line.env(index) {
        let key = utf8_text(alloc, parts.key)?;
        env.push(key, utf8_text(alloc, parts.value)?)?;
        index += 1;
    }
    Ok(env)
}

/// What an execution of the source is started with, given the text of the line's argument.
fn start_for(
    alloc: Global,
    line: &Line<'_>,
    argument: Bytes,
    source: &[u8],
    reading: u64,
) -> Result<Start, OutOfMemory>
    requires text { argument ≡ argument_text (plain_line line.now) }
    requires has { HasArgument (plain_line line.now) }
    requires short { length source.now ≤ 131072 }
    ensures start { IfOk result (λ s. start_view s
        ≡ start_of (plain_line line.now) source.now reading) }
    ensures spelled { IfOk result (λ s. HasSpelling (first_record (start_view s))) }
    ensures fits { IfOk result (λ s. length (record_bytes (first_record (start_view s))) ≤ 16777215) }
{
    // laws that the proof uses
    laws_of_starts();
    Ok(Start {
        id: id_for(alloc, line, reading)?,
        source: Bytes::new(alloc, source)?,
        argument,
        routes: routes_for(alloc, line)?,
        env: env_for(alloc, line)?,
        base: Text::new(alloc, "")?,
        reading,
    })
}

/// Reads the clock, and begins an execution of the source, which has this program.
fn begin<H: Host>(
    alloc: Global,
    line: &Line<'_>,
    argument: Bytes,
    source: &[u8],
    program: Checked,
    host: &mut H,
) -> Result<Engine, EngineFault>
    requires command { (plain_line line.now).command ≡ Run }
    requires text { argument ≡ argument_text (plain_line line.now) }
    requires has { HasArgument (plain_line line.now) }
    requires program { IsSourceOf source.now (program_of program) }
    ensures opening { InTheOutside (λ O. Told (H.world host.old) ((words : List (List ℕ))
        (rest : Rest) → line_of words ≡ Ok (plain_line line.now) → IsFirst 131073 rest source.now
        → Opening O kept.Run (scene words rest (H.world host.old)) (H.world host.old)
        (H.world host.new) result)) }
    ensures holds { Told (H.world host.old) (IfOk result (λ e. Holds e (H.world host.new))) }
    ensures open { IfOk result (λ e. is_closed e ≡ false) }
    ensures waits { IfOk result (λ e. (memory e).waits ≡ 0) }
    ensures disk_fault { IsErrOf result EngineFault.DiskFault
        → DiskFailed H.faults host.old host.new }
    ensures polls { ¬ IsErrOf result EngineFault.PollFault }
    ensures tells { TellsAsBefore H.world host.old host.new }
    ensures counts { NoCountFalls H.faults host.old host.new }
{
    // laws that the proof uses
    each_source_is_one();
    laws_of_histories();
    laws_of_moments();
    laws_of_rules();
    laws_of_sources();
    one_spelling();
    let reading = host.now()?;
    let start = start_for(alloc, line, argument, source, reading)?;
    Engine::begin(alloc, host, &start, program)
}

/// Goes on to the outcome, and tells it, or that there is none yet. It polls at most `waits` times.
fn to_outcome<H: Host>(
    alloc: Global,
    engine: Engine,
    waits: u32,
    host: &mut H,
) -> Result<Said, Silence>
    requires fresh { (memory engine).waits ≡ 0 }
    requires open { is_closed engine ≡ false }
    requires holds { Told (H.world host.old) (Holds engine (H.world host.old)) }
    ensures says { SaysResult (H.faults host.old) (H.faults host.new) result }
    ensures going { InTheOutside (λ O. Told (H.world host.old) ((command : kept.Command)
        (D : List Deed)
        → StandsFor the_language O command false (memory engine) (records (H.world host.old).seen) D
        → Going the_language O command (memory engine) waits D (H.world host.old)
        (H.world host.new) result)) }
    ensures tells { TellsAsBefore H.world host.old host.new }
    ensures counts { NoCountFalls H.faults host.old host.new }
{
    // laws that the proof uses
    laws_of_steps();
    let mut engine = engine;
    match engine.session(host, waits) {
        Ok(()) => Ok(Said::outcome(alloc, engine.machine().outcome())?),
        Err(fault) => Said::of_fault(alloc, fault),
    }
}

/// Starts an execution of a source, which has this program, and goes on to its outcome.
fn run_program<H: Host>(
    alloc: Global,
    line: &Line<'_>,
    argument: Bytes,
    source: &[u8],
    program: Checked,
    host: &mut H,
) -> Result<Said, Silence>
    requires command { (plain_line line.now).command ≡ Run }
    requires text { argument ≡ argument_text (plain_line line.now) }
    requires has { HasArgument (plain_line line.now) }
    requires program { IsSourceOf source.now (program_of program) }
    ensures end { (words : List (List ℕ)) (rest : Rest) (reads reads2 : ℕ)
        → line_of words ≡ Ok (plain_line line.now) → IsFirst 131073 rest source.now
        → IsEnd (scene words rest (H.world host.old)) (H.world host.old) (H.world host.new) reads
        reads2 (H.faults host.old) (H.faults host.new) result }
    ensures worked { InTheOutside (λ O. Told (H.world host.old) ((words : List (List ℕ))
        (rest : Rest) → line_of words ≡ Ok (plain_line line.now) → IsFirst 131073 rest source.now
        → Worked O (scene words rest (H.world host.old)) (H.world host.old) (H.world host.new)
        result)) }
    ensures tells { TellsAsBefore H.world host.old host.new }
    ensures counts { NoCountFalls H.faults host.old host.new }
{
    // laws that the proof uses
    laws_of_sources();
    match begin(alloc, line, argument, source, program, host) {
        Ok(engine) => to_outcome(alloc, engine, line.waits(), host),
        Err(fault) => Said::of_fault(alloc, fault),
    }
}

/// Reads the source, starts an execution of it and goes on to its outcome.
fn run_source<S: Source, H: Host>(
    alloc: Global,
    line: &Line<'_>,
    argument: Bytes,
    source: &mut S,
    host: &mut H,
) -> Result<Said, Silence>
    requires command { (plain_line line.now).command ≡ Run }
    requires text { argument ≡ argument_text (plain_line line.now) }
    requires has { HasArgument (plain_line line.now) }
    ensures end { (words : List (List ℕ)) → line_of words ≡ Ok (plain_line line.now)
        → IsEnd (scene words (S.left source.old) (H.world host.old)) (H.world host.old)
        (H.world host.new) (S.faults source.old) (S.faults source.new) (H.faults host.old)
        (H.faults host.new) result }
    ensures worked { InTheOutside (λ O. Told (H.world host.old) ((words : List (List ℕ))
        → line_of words ≡ Ok (plain_line line.now)
        → Worked O (scene words (S.left source.old) (H.world host.old)) (H.world host.old)
        (H.world host.new) result)) }
    ensures tells { TellsAsBefore H.world host.old host.new }
    ensures reads { S.faults source.old ≤ S.faults source.new }
    ensures counts { NoCountFalls H.faults host.old host.new }
{
    let bytes = read_up_to(alloc, source, SOURCE_LIMIT + 1)?;
    match read_source(alloc, bytes.as_slice()) {
        Ok(program) => run_program(alloc, line, argument, bytes.as_slice(), program, host),
        Err(fault) => Said::of_source(alloc, fault),
    }
}

/// Looks at the argument, and then reads the source, starts an execution of it and goes on to its outcome.
pub(crate) fn run<S: Source, H: Host>(
    alloc: Global,
    line: &Line<'_>,
    source: &mut S,
    host: &mut H,
) -> Result<Said, Silence>
    requires command { (plain_line line.now).command ≡ Run }
    ensures end { (words : List (List ℕ)) → line_of words ≡ Ok (plain_line line.now)
        → IsEnd (scene words (S.left source.old) (H.world host.old)) (H.world host.old)
        (H.world host.new) (S.faults source.old) (S.faults source.new) (H.faults host.old)
        (H.faults host.new) result }
    ensures worked { InTheOutside (λ O. Told (H.world host.old) ((words : List (List ℕ))
        → line_of words ≡ Ok (plain_line line.now)
        → Worked O (scene words (S.left source.old) (H.world host.old)) (H.world host.old)
        (H.world host.new) result)) }
    ensures tells { TellsAsBefore H.world host.old host.new }
    ensures reads { S.faults source.old ≤ S.faults source.new }
    ensures counts { NoCountFalls H.faults host.old host.new }
{
    match read_argument(alloc, line) {
        Ok(argument) => run_source(alloc, line, argument, source, host),
        Err(fault) => Said::of_argument(alloc, fault),
    }
}

/// Goes on with the execution of the journal to its outcome.
pub(crate) fn resume<H: Host>(alloc: Global, line: &Line<'_>, host: &mut H) -> Result<Said, Silence>
    requires command { (plain_line line.now).command ≡ Resume }
    ensures end { (words : List (List ℕ)) (rest : Rest) (reads reads2 : ℕ)
        → line_of words ≡ Ok (plain_line line.now)
        → IsEnd (scene words rest (H.world host.old)) (H.world host.old) (H.world host.new) reads
        reads2 (H.faults host.old) (H.faults host.new) result }
    ensures worked { InTheOutside (λ O. Told (H.world host.old) ((words : List (List ℕ))
        (rest : Rest) → line_of words ≡ Ok (plain_line line.now)
        → Worked O (scene words rest (H.world host.old)) (H.world host.old) (H.world host.new)
        result)) }
    ensures tells { TellsAsBefore H.world host.old host.new }
    ensures counts { NoCountFalls H.faults host.old host.new }
{
    resume_from_blank::<H, Brand>(alloc, line, host, Blank::new(1))
}

/// The same, counting the events of the journal on a ledger of its own.
fn resume_from_blank<H: Host, L: Ledger>(
    alloc: Global,
    line: &Line<'_>,
    host: &mut H,
    blank: Blank,
) -> Result<Said, Silence>
    requires command { (plain_line line.now).command ≡ Resume }
    requires name { blank.name ≡ L.name }
    requires parts { blank.parts ≡ L.parts }
    requires some { 0 < blank.parts }
    ensures end { (words : List (List ℕ)) (rest : Rest) (reads reads2 : ℕ)
        → line_of words ≡ Ok (plain_line line.now)
        → IsEnd (scene words rest (H.world host.old)) (H.world host.old) (H.world host.new) reads
        reads2 (H.faults host.old) (H.faults host.new) result }
    ensures worked { InTheOutside (λ O. Told (H.world host.old) ((words : List (List ℕ))
        (rest : Rest) → line_of words ≡ Ok (plain_line line.now)
        → Worked O (scene words rest (H.world host.old)) (H.world host.old) (H.world host.new)
        result)) }
    ensures tells { TellsAsBefore H.world host.old host.new }
    ensures counts { NoCountFalls H.faults host.old host.new }
{
    resume_counted(alloc, line, host, &mut Steps::<L>::new(blank))
}

/// The same, counting the events of the journal.
fn resume_counted<H: Host, L: Ledger>(
    alloc: Global,
    line: &Line<'_>,
    host: &mut H,
    steps: &mut Steps<L>,
) -> Result<Said, Silence>
    requires command { (plain_line line.now).command ≡ Resume }
    ensures end { (words : List (List ℕ)) (rest : Rest) (reads reads2 : ℕ)
        → line_of words ≡ Ok (plain_line line.now)
        → IsEnd (scene words rest (H.world host.old)) (H.world host.old) (H.world host.new) reads
        reads2 (H.faults host.old) (H.faults host.new) result }
    ensures worked { InTheOutside (λ O. Told (H.world host.old) ((words : List (List ℕ))
        (rest : Rest) → line_of words ≡ Ok (plain_line line.now)
        → Worked O (scene words rest (H.world host.old)) (H.world host.old) (H.world host.new)
        result)) }
    ensures tells { TellsAsBefore H.world host.old host.new }
    ensures counts { NoCountFalls H.faults host.old host.new }
{
    // laws that the proof uses
    laws_of_rules();
    match Engine::open(alloc, host, steps) {
        Ok(engine) => to_outcome(alloc, engine, line.waits(), host),
        Err(fault) => Said::of_fault(alloc, fault),
    }
}
