//! What kernels and a link service that follow a transcript tell.
ghost use Rattle.std.specs.Prelude.{◌≡◌, ◌↔◌, IfOk, IsTrue, MatchBool, MatchOption, option_copied, option_map};
ghost use Rattle.std.specs.Bool.{OnTrue};
ghost use Rattle.charlotte_calls.specs.Setting.{IsValid};
ghost use Rattle.charlotte_packets.specs.Packets.{packet_picture};
ghost use Rattle.end_table.specs.Lent.{lent_entry};
ghost use Rattle.kernel_world.specs.Run.{AllTaken};
ghost use Rattle.transcript_items.specs.Kept.{Kept, Follows, Refuses, doing_of, entry_at, first_due, first_packet, kept_start, stamp_of};
ghost use Rattle.transcript_items.specs.Next.{FollowsNext};

use charlotte_calls::{EndId, NoMemory, Pid, ServiceStep, Setting};
use charlotte_packets::Packet;
use end_table::Lent;
use service_step::Place;
use std::alloc::Global;
use transcript_reader::Reader;
use transcript_reading::LineKind;

/// What a process is doing.
#[derive(Clone, Copy)]
pub enum Doing {
    Runs,
    /// It is in a Wait or a Cancel.
    Waits,
    Exited,
}

/// The kernels and the link service, after the first lines of the transcript of a run.
pub trait Kernels: Sized + Drop {
    /// What they keep.
    ghost kept: { Self → Kept };

    /// They are those of a setting.
    ghost stand: { Self → Type 0 };

    /// Before the first entry.
    fn start(alloc: Global, setting: Setting) -> Result<Self, NoMemory>
        requires { IsValid setting }
        ensures stand { IfOk result stand }
        ensures start { IfOk result (λ k. kept k ≡ kept_start setting) };

    /// Does what a line says; `false` exactly where that is not possible, and then no further line is followed.
    fn follow(&mut self, kind: &LineKind) -> Result<bool, NoMemory>
        requires { stand self.old }
        ensures stand { IfOk result (λ went. OnTrue went (stand self.new)) }
        ensures follows { IfOk result (λ went. MatchBool went (Follows (kept self.old) kind.now (kept self.new)) (Refuses (kept self.old) kind.now)) };

    /// Reads the next line and does what it says, where it is just what they expect there: no value is made of it. `None`: it was not read, and may be
    /// any. `false` exactly where that is not possible, and then no further line is followed.
    fn follow_expected(&mut self, reader: &mut Reader<'_>) -> Result<Option<bool>, NoMemory>
        requires { stand self.old }
        ensures stand { IfOk result (λ went. MatchOption went (stand self.new) (λ w. OnTrue w (stand self.new))) }
        ensures follows { IfOk result (λ went. MatchOption went ((kept self.new ≡ kept self.old) × (reader.new ≡ reader.old))
            (λ w. FollowsNext (kept self.old) reader.old w (kept self.new) reader.new)) };

    /// How many kernels there are.
    fn count(&self) -> u8
        ensures { result ≡ (kept self.now).setting.kernels };

    /// Stamp and kernel of the last entry.
    fn latest(&self) -> Option<(u64, u8)>
        ensures { result ≡ (kept self.now).latest };

    /// The first service step of the last event that no line has shown yet.
    fn due(&self) -> Option<&ServiceStep>
        ensures { option_copied result ≡ first_due (kept self.now) };

    /// Whether no packet is under way.
    fn is_quiet(&self) -> bool
        ensures { IsTrue result ↔ AllTaken (kept self.now).world };

    /// The kernel of a process, and what the process is doing; `None` where it is not there.
    fn doing(&self, p: Pid) -> Option<(u8, Doing)>
        requires { stand self.now }
        ensures { result ≡ doing_of (kept self.now) p };

    /// The last stamp of a kernel; `None` where it is not there.
    fn stamp(&self, kernel: u8) -> Option<u64>
        requires { stand self.now }
        ensures { result ≡ stamp_of (kept self.now) kernel };

    /// The first packet from a kernel to a kernel that was not taken.
    fn first(&self, from: u8, to: u8) -> Option<&Packet>
        requires { stand self.now }
        ensures { option_map packet_picture (option_copied result) ≡ first_packet (kept self.now) from to };

    /// What a kernel keeps of an end.
    fn entry(&self, kernel: u8, end: EndId) -> Lent<'_>
        requires { stand self.now }
        ensures { lent_entry result ≡ entry_at (kept self.now) kernel end };

    /// Where an end is in the link service.
    fn place(&self, end: EndId) -> Place
        ensures { result ≡ ((kept self.now).service.ends end).place };
}
