//! What a program of the product meets outside itself: files that it reads, sinks that it puts bytes to, and the
//! status with which it ends.
//!
//! # What is proved
//! What a read or a put did, where files and sinks tell what they hold. Told or not, each read with its answer and each put stands in a
//! log, in order, which takes no memory. A count of faults rises by one with each that failed, and stays with every other.
//! Of a read and of a put of the host which calls of the system it makes, and what they answered; of the words of the program, that these are all
//! that stand behind its name.
//! By `Reads`, `Holds`, `counted_read`, `counted_put` and the clauses `logged` of the traits `Files` and `Sink`; the laws `whole_puts` and
//! `part_put`; exact clauses of the in-memory ones. By `ReadsOne` and `PutsBy` for the host, and the clause of `read_words`.
#![tactic(auto)]

mod faults;
mod files;
mod host_files;
mod host_sink;
mod law;
mod list_files;
mod list_sink;
mod log;
mod opener;
mod planned;
mod sink;
mod status;
mod sure_files;
mod sure_sink;
mod system;
mod words;
mod writer;

pub use files::{FileAnswer, Files};
pub use host_files::HostFiles;
pub use host_sink::HostSink;
pub use law::{part_put, whole_puts};
pub use list_files::ListFiles;
pub use list_sink::ListSink;
pub use sink::{Failed, Sink};
pub use status::Status;
pub use sure_files::SureFiles;
pub use sure_sink::SureSink;
pub use words::{HostWords, Words, WordsFault, read_words};
