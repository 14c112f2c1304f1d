// Printing a whole text.
ghost use Rattle.std.specs.Prelude.{◌≡◌, ◌⊎◌, true, false};
ghost use Rattle.wf_host.specs.Calls.{AtAnyMoment, NoCountFalls, ReadsAsBefore, TellsAsBefore};
ghost use Rattle.wf_host.specs.World.{Told, Rose};
ghost use Rattle.wf_host.specs.Printing.{PrintsFront, PrintsWhole, LeavesSome, TookNothing, PrintedSoFar};

use crate::Host;

/// Prints the bytes, a piece at a time, until all are taken, a print fails or one takes nothing; true where all were taken.
/// Each deed is a print. It stops early only where a print failed, or took nothing of a piece that isn't empty: then it answers false,
/// a front of the text stands printed, and at least one byte doesn't. It allocates nothing itself, and never touches the journal file.
pub fn print_all<H: Host>(host: &mut H, text: &[u8]) -> bool
    // what was printed is the front of the text, and nothing else was done
    ensures printed { Told (H.world host.old)
        (PrintsFront (H.world host.old) (H.world host.new) text.now) }
    ensures whole { result ≡ true → Told (H.world host.old)
        (PrintsWhole (H.world host.old) (H.world host.new) text.now) }
    // it stops early only where a print failed, or took nothing
    ensures stuck { result ≡ false → Rose (H.faults host.old).print (H.faults host.new).print
        ⊎ Told (H.world host.old) (TookNothing (H.world host.old) (H.world host.new)) }
    ensures not_whole { result ≡ false → Told (H.world host.old)
        (LeavesSome (H.world host.old) (H.world host.new) text.now) }
    // a crash leaves the file as one at entry may, and what was printed by then is the front of the text
    ensures any_moment { AtAnyMoment H.world host.old host.new
        (PrintedSoFar (H.world host.old) text.now) }
    ensures seen { ReadsAsBefore H.world host.old host.new }
    ensures tells { TellsAsBefore H.world host.old host.new }
    ensures counts { NoCountFalls H.faults host.old host.new }
{
    let mut rest = text;
    while !rest.is_empty() {
        let Ok(taken) = host.print(rest) else {
            return false;
        };
        if taken == 0 {
            return false;
        }
        rest = rest.split_at(taken).1;
    }
    true
}
