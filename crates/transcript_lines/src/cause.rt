ghost use Rattle.std.specs.Prelude.{◌≡◌};
ghost use Rattle.transcript_lines.specs.Transcript.{cause_text};

use charlotte_calls::Cause;

/// The name of a cause of refusal.
pub fn cause_name(cause: Cause) -> &'static [u8]
    ensures { result.now ≡ cause_text cause }
{
    match cause {
        Cause::NoEnd => b"NoEnd",
        Cause::Busy => b"Busy",
        Cause::Dead => b"Dead",
        Cause::EncloseNoEnd => b"EncloseNoEnd",
        Cause::EncloseBusy => b"EncloseBusy",
        Cause::EncloseSame => b"EncloseSame",
        Cause::Late => b"Late",
        Cause::NoActivity => b"NoActivity",
        Cause::LinksFull => b"LinksFull",
        Cause::EncloseTwice => b"EncloseTwice",
    }
}
