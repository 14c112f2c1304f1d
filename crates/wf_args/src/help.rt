// What the program prints of itself.
ghost use Rattle.std.specs.Prelude.{◌≡◌};
ghost use Rattle.wf_args.specs.Help.{IsHelp, help, version};

/// The help: the commands with their options, in at most 21 lines of at most 80 characters.
#[tactic(auto, unfolding(crate::specs::Help::help))]
pub fn help_text() -> &'static str
    ensures text { result.now ≡ help }
    ensures lists { IsHelp result.now }
{
    "workflow COMMAND [--OPTION WORD ..]\n\
     check      tells whether a source is accepted: --source\n\
     format     prints the tree of a source: --source\n\
     run        runs it: --source, --journal, --args, --id, --route, --env, --waits\n\
     resume     goes on with an execution: --journal, --waits\n\
     show       shows what an execution has come to: --journal\n\
     at         shows what it had come to after some turns: --journal, --turn\n\
     log        prints what an execution has logged: --journal, --grep\n\
     --help     prints this text\n\
     --version  prints the program's name and version\n\
     Options follow in any order, each once; --route and --env up to 20 times.\n\
     --source PATH: the file of the source; without it standard input is read.\n\
     --journal PATH: the file of the journal; without it that is kept in memory.\n\
     --args JSON: the argument of main; without it that is null.\n\
     --id ID: 1 to 64 letters, digits, dots, underscores and hyphens.\n\
     --route HOST=NAME:PORT: calls for HOST are sent to NAME and PORT.\n\
     --env KEY=VALUE: sys.get_env of KEY gives VALUE; of equal keys the first counts.\n\
     --turn N: after so many turns, 0 to 4294967295, or all where there are fewer.\n\
     --grep TEXT: only the lines whose JSON holds the text.\n\
     --waits N: the command waits at most N times, 1 to 1000000000; else 1000000.\n"
}

/// The program's name and version, and a line end.
#[tactic(auto, unfolding(crate::specs::Help::version))]
pub fn version_text() -> &'static str
    ensures { result.now ≡ version }
{
    "workflow 0.1.0\n"
}
