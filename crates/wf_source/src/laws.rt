// Laws of sources.
ghost use Rattle.wf_source.specs.Function.{SourceIsIt};
ghost use Rattle.wf_source.specs.Laws.{OneProgram, OneRefusal, NotBoth, ProgramIsShort};

use wf_syntax_rules::{one_fault, one_program};

/// Carries laws: a source is at most one program, is refused with at most one refusal, and not both; and a program has at most 131,072
/// bytes.
pub fn laws_of_sources()
    ensures one_program { OneProgram }
    ensures one_refusal { OneRefusal }
    ensures not_both { NotBoth }
    ensures short { ProgramIsShort }
{
    one_program();
    one_fault();
}

/// Carries the law that bytes are a program or refused, and that the definitions' function tells which and how.
pub fn each_source_is_one()
    ensures { SourceIsIt }
{
    laws_of_sources();
}
