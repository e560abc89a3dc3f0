ghost use Rattle.lynx_meaning.specs.Agree.{SourceAndCodeAgree};

/// Source and code agree in every module of the grammar that obeys the typing rules. Where the source of a part ends or waits, so does its
/// code, after the same actions and with the same variables, and the other way round; where the source goes on for ever, so does the code,
/// and it comes to all actions of the source; and no instruction finds a missing operand or one of a wrong kind.
pub fn source_and_code_agree()
    ensures { SourceAndCodeAgree }
{}
