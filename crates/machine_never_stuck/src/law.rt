ghost use Rattle.machine_never_stuck.specs.Sound.{ShapedCodeIsNeverStuck};

/// A thread at an address of shaped code, with variables and answers of their types, finds what its instruction needs. It then goes on as
/// a thread of the shapes, asks for an action of the module with values of the right types, or ends.
pub fn shaped_code_is_never_stuck()
    ensures { ShapedCodeIsNeverStuck }
{}
