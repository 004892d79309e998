ghost use Rattle.recovery_coord.specs.Laws.{CompletesOnce, OtherAnswersChangeNothing};

/// A law: an answer whose number isn't outstanding changes nothing.
pub fn other_answers_change_nothing()
    ensures { OtherAnswersChangeNothing }
{}

/// A law: a record that an answer completes wasn't complete before, and with it each of its registrations has completed.
pub fn completes_once()
    ensures { CompletesOnce }
{}
