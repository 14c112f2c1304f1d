// Worked examples.
ghost use Rattle.wf_args.specs.Rows.{WorkedLines, WorkedWords};

/// Carries worked examples: some words, and what line they are or where they are bad.
#[tactic(auto, unfolding(crate::specs::Lines::line_of))]
pub fn worked_lines()
    ensures { WorkedLines }
{}

/// Carries worked examples of the words of `--route`, `--waits`, `--turn` and `--env`.
pub fn worked_words()
    ensures { WorkedWords }
{}
