// The lines to calls, by the calls' numbers.
ghost use Rattle.std.specs.Prelude.{◌≡◌, ◌<◌, ℕ, length, OnOk};
ghost use Rattle.wf_connections.specs.Lines.{AreRead, AreSame};
ghost use Rattle.wf_host.specs.World.{call_of};

use crate::line::Line;
use wf_host::What;
use wf_value::OutOfMemory;

/// Makes room for line `i`.
pub(crate) fn reach(lines: &mut Vec<Line>, i: usize) -> Result<(), OutOfMemory>
    ensures room { OnOk result (i < length lines.new.items) }
    ensures same { AreSame lines.old.items lines.new.items }
    ensures read { AreRead lines.old.items → AreRead lines.new.items }
{
    while lines.len() <= i {
        lines.push(Line::unused())?;
    }
    Ok(())
}

/// The call of which something was heard.
pub(crate) fn call_of(what: &What) -> Option<u64>
    ensures { result ≡ call_of what.now }
{
    match what {
        What::Bytes(call, _) => Some(*call),
        What::End(call) => Some(*call),
        What::Broken(call) => Some(*call),
        What::Nothing | What::Visit(_, _) | What::VisitEnd(_) => None,
    }
}
