// Laws of command lines.
ghost use Rattle.wf_args.specs.Laws.{EnvsAreSpelled, IsLeastBadWord, LinesAreSpelled, NumbersAreSpelled, OptionsAreFound, RoutesAreSpelled, TurnsAreSpelled};

/// Carries a law: the number of a bad line is the least index such that the words up to it begin
/// no line, or the count of the words where these begin a line and are none.
pub fn bad_words_are_least()
    ensures { IsLeastBadWord }
{}

/// Carries a law: where the words are a line, the word behind the first word at an odd index that
/// is an option's name is the one that the line has for this option. So `journal_of` and
/// `source_of` find what the line says.
pub fn options_are_found()
    ensures { OptionsAreFound }
{}

/// Carries a law: words are read as a line exactly where they spell it and it is one: a command
/// with options that it takes, each with a word that fits it, none more often than it may stand,
/// and none that is required missing.
pub fn lines_are_spelled()
    ensures { LinesAreSpelled }
{}

/// Carries laws of single words: one is read as a number, or as a count of turns, exactly where it is
/// this number in decimal; as a route exactly where it is its HOST, `=`, its NAME, `:` and its PORT in
/// decimal; and as a pair of the environment exactly where it is its KEY, `=` and its VALUE.
pub fn words_are_spelled()
    ensures numbers { NumbersAreSpelled }
    ensures turns { TurnsAreSpelled }
    ensures routes { RoutesAreSpelled }
    ensures envs { EnvsAreSpelled }
{}
