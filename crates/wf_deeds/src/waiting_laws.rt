// Laws of waits: how many polls of a session bring nothing.
ghost use Rattle.wf_deeds.specs.Waits.{SessionsWaitIdly};

use wf_model::laws_of_counts;

/// Carries a law: of the polls of a session all but 300,001 brought nothing, and but as many as requests came.
pub fn laws_of_waiting()
    ensures idly { SessionsWaitIdly }
{
    laws_of_counts();
}
