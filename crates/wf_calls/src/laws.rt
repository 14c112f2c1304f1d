// What numbers of calls have to do with the definition of steps. The function does nothing; its clause is a law.
ghost use Rattle.wf_calls.specs.Numbers.{NumbersAreThoseOfSteps};

/// Carries a law. The call of a number, and the calls of which one is closed, are those of a configuration that has these calls.
pub fn numbers_are_those_of_steps()
    ensures { NumbersAreThoseOfSteps }
{}
