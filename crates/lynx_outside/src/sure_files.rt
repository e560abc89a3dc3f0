//! Files in memory that are always read.
ghost use Rattle.std.specs.Prelude.{◌≡◌, [], ◌∷◌, ◌++◌, Some, IsErrOf, option_copied, option_map, find, bytes_eq, string_bytes};
ghost use Rattle.lynx_outside.specs.Files.{listing_of, read_of, bytes_of, Reads, IsWithin};
ghost use Rattle.lynx_outside.specs.Listed.{SureListing};

use crate::log::{ReadLog, ReadNote};
use crate::{FileAnswer, Files};
use std::alloc::Global;
use std::marker::Model;

/// Files in memory. No read of them fails.
#[derive(Drop)]
pub struct SureFiles {
    files: Vec<(String, Vec<u8>)>,
    log: ReadLog,
}

impl Model for SureFiles {
    ghost Value = { SureListing };

    ghost view = { λ a. record { files = listing_of a.files.items; log = a.log.reads } };
}

impl SureFiles {
    /// These files by their names, each with its bytes.
    pub fn of(files: Vec<(String, Vec<u8>)>) -> SureFiles
        ensures { result ≡ record { files = listing_of files.items; log = [] } }
    {
        SureFiles {
            files,
            log: ReadLog::new(),
        }
    }
}

impl Files for SureFiles {
    ghost state = { λ a. record { contents = Some a.files; faults = 0; log = a.log } };

    fn read(&mut self, alloc: Global, name: &str, most: u32) -> Result<Vec<u8>, FileAnswer>
        ensures same { self.new.files ≡ self.old.files }
        ensures told { Reads self.old.files (read_of name.now most result) }
        ensures within { IsWithin (read_of name.now most result) }
        ensures logged { self.new.log ≡ self.old.log ++ read_of name.now most result ∷ [] }
        ensures sure { ¬ IsErrOf result FileAnswer.Failed }
    {
        let answer = read_listed(alloc, &self.files, name, most);
        self.log = self.log.then(&ReadNote {
            name,
            most,
            answer: &answer,
        });
        answer
    }
}

// The bytes of the first of the files that has this name.
fn read_listed(
    alloc: Global,
    files: &[(String, Vec<u8>)],
    name: &str,
    most: u32,
) -> Result<Vec<u8>, FileAnswer>
    ensures told { Reads (listing_of files.now) (read_of name.now most result) }
    ensures within { IsWithin (read_of name.now most result) }
    ensures sure { ¬ IsErrOf result FileAnswer.Failed }
{
    let Some(bytes) = first_bytes(files, name) else {
        return Err(FileAnswer::Absent);
    };
    if bytes.len() > most as usize {
        return Err(FileAnswer::TooBig);
    }
    Ok(bytes.to_vec(alloc)?)
}

// The first of the files that has this name.
fn first_named<'a>(files: &'a [(String, Vec<u8>)], name: &str) -> Option<&'a (String, Vec<u8>)>
    ensures { option_copied result ≡ find (λ file. bytes_eq (string_bytes file.0) name.now) files.now }
{
    files.iter().find(|file| file.0.as_str() == name)
}

// The first bytes that stand under this name.
#[tactic(auto, using(crate::proofs::Listings::listings))]
fn first_bytes<'a>(files: &'a [(String, Vec<u8>)], name: &str) -> Option<&'a Vec<u8>>
    ensures { option_map (λ bytes. bytes.now.items) result ≡ bytes_of (listing_of files.now) name.now }
{
    match first_named(files, name) {
        Some(file) => Some(&file.1),
        None => None,
    }
}
