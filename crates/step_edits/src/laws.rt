ghost use Rattle.step_edits.specs.Edits.{TakesBack};

/// An edit that can be done and then its inverse leave a list as it was, and the inverse can be
/// done.
pub fn inverse_takes_back()
    ensures { TakesBack }
{}
