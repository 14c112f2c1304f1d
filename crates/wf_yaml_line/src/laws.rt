// Laws of refusals.
ghost use Rattle.wf_yaml_line.specs.FaultLaws.{SpeakingIsAnOrder, TheLeastSpeaks};

/// Carries a law: refusals stand in an order, by line and then by kind.
pub fn faults_are_in_order()
    ensures { SpeakingIsAnOrder }
{}

/// Carries a law: where two parts are read on their own, of whatever types, the least of their
/// refusals speaks.
pub fn faults_are_least<A, B, C>()
    ensures { TheLeastSpeaks A B C }
{}
