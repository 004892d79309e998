ghost use Rattle.ots_model.specs.SafeByLine.{AllowedIsSafe};
ghost use Rattle.ots_model.specs.SafeExamples.{SafetyExamples};

/// On short lists of lines, what it means to be safe allows and refuses what it must, for each of the rules. The function does nothing: its contract is the law.
pub fn safety_refuses()
    ensures { SafetyExamples }
{}

/// Lines of which each was allowed by those before it are safe. The function does nothing: its contract is the law.
pub fn allowed_lines_are_safe()
    ensures { AllowedIsSafe }
{}
