// Laws of what a host in memory hears.
ghost use Rattle.wf_host.specs.Hearing.{HeardIsStarted};

/// Carries a law: a poll of a host in memory hears only of calls that were started and not dropped since, whatever its services are.
pub fn laws_of_hearing()
    ensures heard_is_started { HeardIsStarted }
{}
