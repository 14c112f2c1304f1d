// What the definitions come to.
ghost use Rattle.wf_http_body.specs.Chunks.{HasOneState};

/// Carries a law: the same bytes of a body in chunks come to one state, by the limit on its content
/// and by how the connection stands. The function does nothing; the check carries its clause out.
pub fn bodies_have_one_state()
    ensures { HasOneState }
{}
