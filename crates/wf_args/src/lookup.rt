// The words of single options, which are found also where the words are no command line.
ghost use Rattle.std.specs.Prelude.{◌≡◌, Ok, codes, slice_get};
ghost use Rattle.std.specs.Option.{option_copied};
ghost use Rattle.wf_args.specs.Lines.{PlainLine, words_view, line_of, word_of, word_behind, word_after, words_after, name_word};
ghost use Rattle.wf_args.specs.declared.option.OptionName.TheVariants.{Source, Journal};

use crate::option::OptionName;

/// The path of the journal: the word behind the first word at an odd index that is `--journal`.
pub fn journal_of(words: &[String]) -> Option<&str>
    ensures word { option_copied result ≡ word_behind (codes "--journal") (words_view words.now) }
    // where the words are a line, it is the line's
    ensures line { (l : PlainLine) → line_of (words_view words.now) ≡ Ok l
        → option_copied result ≡ word_of Journal l }
{
    find_behind("--journal", words)
}

/// The path of the source: the word behind the first word at an odd index that is `--source`.
pub fn source_of(words: &[String]) -> Option<&str>
    ensures word { option_copied result ≡ word_behind (codes "--source") (words_view words.now) }
    // where the words are a line, it is the line's
    ensures line { (l : PlainLine) → line_of (words_view words.now) ≡ Ok l
        → option_copied result ≡ word_of Source l }
{
    find_behind("--source", words)
}

/// The address for callbacks: the word behind the first word at an odd index that is `--listen`.
pub fn listen_of(words: &[String]) -> Option<&str>
    ensures { option_copied result ≡ word_behind (codes "--listen") (words_view words.now) }
{
    find_behind("--listen", words)
}

fn find_behind<'a>(name: &str, words: &'a [String]) -> Option<&'a str>
    ensures { option_copied result ≡ word_behind name.now (words_view words.now) }
{
    let [_command, options @ ..] = words else {
        return None;
    };
    find_after(name, options)
}

/// The word of the first option of this name.
pub(crate) fn find_in<'a>(name: OptionName, options: &'a [String]) -> Option<&'a str>
    ensures { option_copied result ≡ word_after (name_word name) (words_view options.now) }
{
    find_after(name.word(), options)
}

fn find_after<'a>(name: &str, options: &'a [String]) -> Option<&'a str>
    ensures { option_copied result ≡ word_after name.now (words_view options.now) }
{
    let mut rest = options;
    while let [option, word, more @ ..] = rest {
        if option.as_str() == name {
            return Some(word.as_str());
        }
        rest = more;
    }
    None
}

/// The word with this index among those of the options of this name.
pub(crate) fn find_nth<'a>(name: OptionName, index: usize, options: &'a [String]) -> Option<&'a str>
    ensures { option_copied result
        ≡ slice_get (words_after (name_word name) (words_view options.now)) index }
{
    let mut before = index;
    let mut rest = options;
    while let [option, word, more @ ..] = rest {
        if option.as_str() == name.word() {
            if before == 0 {
                return Some(word.as_str());
            }
            before -= 1;
        }
        rest = more;
    }
    None
}
