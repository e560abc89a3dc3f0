ghost use Rattle.std.specs.Prelude.{◌≡◌, ◌↔◌, true};
ghost use Rattle.transcript_expected.specs.Forms.{MayStand, may_stand};
ghost use Rattle.transcript_expected.specs.declared.form.Form.{Form as AForm};
ghost use Rattle.transcript_reading.specs.Order.{Place as APlace};

/// A form may stand in a place exactly where a line of this form may.
pub fn forms_that_stand()
    ensures { (place : APlace) (f : AForm) → (may_stand place f ≡ true) ↔ MayStand place f }
{}
