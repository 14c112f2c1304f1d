// Laws of texts that were heard in part.
ghost use Rattle.wf_exchange.specs.Replies.{CodeIsOfTheHead};
ghost use Rattle.wf_exchange.specs.Requests.{GoalsAreSent, NoFrontIsWhole, RequestIsRead};

/// Carries the laws that a front of a call's request asks, if it asks anything, with the call's identifier, and that it is all of it
/// then; and that what is sent of a URL is sent as it is, which these laws ask for.
pub fn requests_are_read()
    ensures read { RequestIsRead }
    ensures whole { NoFrontIsWhole }
    ensures goals { GoalsAreSent }
{}

/// Carries the law that a response that is heard of the front of a text has the code of the text's head.
pub fn replies_are_read()
    ensures { CodeIsOfTheHead }
{}
