ghost use Rattle.compiler_shapes.specs.Law.{ModuleCodeIsShaped};

/// The code of every module of the grammar that obeys the typing rules is shaped: at each address it is fixed which types stand on a
/// thread's stack, which tries and requests are open, and each instruction finds there what it takes: a `reply` values
/// of the types of its request's results.
pub fn module_code_is_shaped()
    ensures { ModuleCodeIsShaped }
{}
