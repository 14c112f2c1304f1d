// Laws of what is written and read back.
ghost use Rattle.wf_yaml_write.specs.Back.{TextsComeBack, KeysComeBack, Utf8IsKept, NumbersComeBack, DecimalsComeBack, WordsComeBack, LinesComeBack};
ghost use Rattle.wf_yaml_write.specs.Whole.{TreesComeBack};

/// Carries a law: a text and a key that were written are read back as they were.
pub fn texts_come_back()
    ensures texts { TextsComeBack }
    ensures keys { KeysComeBack }
    ensures utf8 { Utf8IsKept }
{}

/// Carries a law: the other scalars, and empty lists and maps, are read back as they were.
pub fn scalars_come_back()
    ensures numbers { NumbersComeBack }
    ensures decimals { DecimalsComeBack }
    ensures words { WordsComeBack }
{}

/// Carries a law: a tree that is laid out as one line, and is one that a source may have there, is
/// read back from the characters of that line, which is no pair.
pub fn lines_come_back()
    ensures { LinesComeBack }
{}

/// Carries a law: a tree in memory whose decimals stand where a source may have them is read from
/// the text that it is written as.
pub fn trees_come_back()
    ensures { TreesComeBack }
{}
