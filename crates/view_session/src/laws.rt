ghost use Rattle.view_session.specs.Laws.{KeptEditsLead};

/// The text of a trail is an edits file, and its edits, made one after another from the list with
/// which the session began, are all made, and leave the list that the session has: a law over the
/// definitions.
pub fn kept_edits_lead()
    ensures { KeptEditsLead }
{}
