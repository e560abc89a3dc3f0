ghost use Rattle.std.specs.Prelude.{◌≡◌, ℕ, List};
ghost use Rattle.plan_text.specs.declared.plan.Plan.{Plan};
ghost use Rattle.plan_text.specs.PlanText.{IsPlanText};

/// Each text spells at most one plan.
pub fn one_plan()
    ensures { (bytes : List ℕ) (a b : Plan) → IsPlanText bytes a → IsPlanText bytes b → a ≡ b }
{}
