// The program of a source.
ghost use Rattle.std.specs.Prelude.{IfOk, IfErr};
ghost use Rattle.wf_check.specs.Seen.{program_of};
ghost use Rattle.wf_source.specs.Programs.{IsRefusalOf, IsSourceOf};
ghost use Rattle.wf_source.specs.Views.{TellsOf};

use crate::refusing::{refusal_of, said_refusal};
use crate::{SourceFault, read_tree};
use std::alloc::Global;
use wf_check::{CheckFault, Checked, check};
use wf_syntax::build;
use wf_syntax_rules::SyntaxFault;

/// The program of a source, checked, or why it is refused: as [`read_tree`] refuses it; or for the first rule of the syntax that
/// its tree breaks, at the path of its node, and in an expression at a byte of it; or else for what [`check`] says first of the
/// program, at the path of its node: a rule that the program breaks, or a form that isn't built yet.
pub fn read_source(alloc: Global, bytes: &[u8]) -> Result<Checked, SourceFault>
    ensures program { IfOk result (λ c. IsSourceOf bytes.now (program_of c)) }
    ensures fault { IfErr result (TellsOf (IsRefusalOf bytes.now)) }
{
    let tree = read_tree(alloc, bytes)?;
    let program = match build(alloc, &tree) {
        Ok(program) => program,
        Err(SyntaxFault::Refused(kind, path)) => {
            return Err(SourceFault::Refused(refusal_of(kind, path)));
        }
        Err(SyntaxFault::OutOfMemory) => return Err(SourceFault::OutOfMemory),
    };
    // its memory is taken again for the table
    drop(tree);
    match check(alloc, program) {
        Ok(checked) => Ok(checked),
        Err(CheckFault::Refused(kind, path)) => {
            Err(SourceFault::Refused(said_refusal(kind, path)))
        }
        Err(CheckFault::OutOfMemory) => Err(SourceFault::OutOfMemory),
    }
}
