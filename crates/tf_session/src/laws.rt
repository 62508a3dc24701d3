//! Laws of the calls of a session, proved for all calls: each function's contract is a law, and its body does nothing.
ghost use Rattle.tf_session.specs.Laws.{MadeCallsHaveBegun};

/// A call that was made has begun. So it isn't made again, since a request is sent only if it hasn't begun.
pub fn made_calls_have_begun()
    ensures { MadeCallsHaveBegun }
{}
