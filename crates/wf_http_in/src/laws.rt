// What the definitions come to.
ghost use Rattle.wf_http_in.specs.AnswerOf.{AnswersAreSmall, HasOneAnswer, NoneAtFirst};

/// Carries a law: the same bytes have one answer, by how the connection stands. So two readings that
/// have heard the same bytes tell the same, however these were cut. The function does nothing; the
/// check carries its clause out.
pub fn one_answer()
    ensures { HasOneAnswer }
{}

/// Carries a law: there is no answer before anything is heard, while the connection is open.
pub fn none_at_first()
    ensures { NoneAtFirst }
{}

/// Carries a law: each answer is small. A response has a code of at most 999, at most 100 fields whose
/// names and values have together at most 65,536 bytes, and a body of at most 2,097,152 bytes.
pub fn answers_are_small()
    ensures { AnswersAreSmall }
{}
