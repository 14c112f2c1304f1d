// What holds of the errors of a call's arguments.
ghost use Rattle.wf_http_ask.specs.Kinds.{KindsComeFirst};

/// The answer is a TypeError exactly where an argument is of a wrong kind, whatever the method's
/// name and the timeout's value are. The function does nothing; the check carries its clause out.
pub fn kinds_come_first()
    ensures { KindsComeFirst }
{}
