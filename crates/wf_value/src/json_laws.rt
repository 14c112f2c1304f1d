// Laws of reading JSON, over any bytes.
ghost use Rattle.std.specs.Prelude.{List, ℕ};
ghost use Rattle.wf_value.specs.JsonLaws.{OneHolds, NoTwoHold, OneValue, FindsTheValue};

/// Carries a law: any bytes are one of a value, no JSON, JSON with a decimal, and JSON that nests
/// too deep, and never two of these; and they are one value at most.
pub fn reading_is_decided()
    ensures one { OneHolds }
    ensures apart { (b : List ℕ) → NoTwoHold b }
    ensures unique { OneValue }
{}

/// Carries a law: reading as a function, by which the meaning of programs speaks of an argument,
/// gives a value exactly where the bytes are that value.
pub fn reading_is_a_function()
    ensures { FindsTheValue }
{}
