/// A message encloses at most so many ends.
pub const MOST_ENDS: u32 = 8;

/// At most so many kernels are told to forget an end.
pub const MOST_FORGETS: u32 = 8;

/// At most so many packets of an end go again on news: its want or unwant, and its moved.
pub const MOST_RESENT: u32 = 2;

/// END sends at most so many packets: gone of each enclosed end, and its own.
pub const PACKETS_OF_END: u32 = MOST_ENDS + 1;

/// NOTICE sends at most so many packets, with its goneseen.
pub const PACKETS_OF_NOTICE: u32 = MOST_FORGETS + 1;

/// The rule of parcel sends at most so many packets: moved of each end that came, taken, and those that go again.
pub const PACKETS_OF_PARCEL: u32 = MOST_ENDS + 1 + MOST_RESENT;

/// The rule of back sends at most so many packets: moved of each end that came back, and those of NOTICE.
pub const PACKETS_OF_BACK: u32 = MOST_ENDS + PACKETS_OF_NOTICE;
