ghost use Rattle.typing_signatures.specs.Facts.{OpsHaveFacts};
ghost use Rattle.typing_signatures.specs.Law.{FactsMakeOp, SignatureTellsOp};

/// Two ops whose names are names of the language have the same signature exactly where they have the same name, the same argument types
/// and the same result types. Each op with facts is such an op.
pub fn signature_tells_op()
    ensures told { SignatureTellsOp }
    ensures facts { FactsMakeOp }
{}

/// In a module whose tokens are within the limits, and in which no rule fails, each op has a name of at most 32 bytes, rows of 1 to 16
/// numbers, at most 8 links among its arguments and among its results, a widest request and a widest reply of at most 256 bytes, and so a
/// signature of at most 250.
pub fn ops_have_facts()
    ensures { OpsHaveFacts }
{}
