// What the definitions come to.
ghost use Rattle.wf_http_serve.specs.Visits.{HasOneState};
ghost use Rattle.wf_http_serve.specs.HeadsRead.{EachTextIsRead};
ghost use Rattle.wf_http_serve.specs.Small.{VisitsAreSmall, LoneValuesAreSmall};
ghost use Rattle.wf_http_serve.specs.VisitLaws.{EachVisitHasAState, AskedStays, FrontsAskOne};

/// Carries a law: the same bytes of a visit come to one state, by how the connection stands. So two
/// visits that have heard the same bytes tell the same, however these were cut. The function does
/// nothing; the check carries its clause out.
pub fn visits_have_one_state()
    ensures { HasOneState }
{}

/// Carries a law: each text begins with the head of a request, may come to one, or never does.
pub fn each_text_is_read()
    ensures { EachTextIsRead }
{}

/// Carries a law: the bytes of each visit come to a state, which is computed from them.
pub fn each_visit_has_a_state()
    ensures { EachVisitHasAState }
{}

/// Carries the laws that each request that a visit asks is within the limits on heads and bodies,
/// and with its fields the only value of a name.
pub fn visits_are_small()
    ensures small { VisitsAreSmall }
    ensures lone { LoneValuesAreSmall }
{}

/// Carries the laws that a visit that asks something asks this whatever is heard behind it, and that
/// two visits that heard fronts of one text ask the same.
pub fn asked_stays()
    ensures stays { AskedStays }
    ensures one { FrontsAskOne }
{}
