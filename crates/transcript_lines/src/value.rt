ghost use Rattle.std.specs.Prelude.{◌≡◌, ◌++◌};
ghost use Rattle.charlotte_text.specs.Spelling.{end_text};
ghost use Rattle.transcript_lines.specs.Transcript.{fields_text, value_text};

use charlotte_packets::MovingPicture;

/// The numbers of the value of an end, as its text has them behind the end.
#[inline(always)]
pub fn value_fields(value: &MovingPicture) -> [u32; 9]
    ensures { value_text value.now ≡ end_text value.now.end ++ fields_text result }
{
    [
        value.hops,
        u32::from(value.hint.0),
        value.hint.1,
        value.sent,
        value.asked,
        value.served,
        value.want,
        u32::from(value.dead),
        u32::from(value.trail),
    ]
}
