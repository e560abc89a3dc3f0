ghost use Rattle.compiler_runnable.specs.Law.{CheckedCodeIsRunnable};

/// The code of every module that was checked can be run: it is shaped, its rows have lengths, the parameters of each entry are the first of
/// its variables, with the types of its operation's arguments, and each operation has its facts and its signature.
pub fn checked_code_is_runnable()
    ensures { CheckedCodeIsRunnable }
{}
