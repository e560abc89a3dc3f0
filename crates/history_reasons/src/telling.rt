//! A text that is being written, and its phrases.

use charlotte_calls::{EndId, NoMemory, Pid, Side};
use charlotte_text::push_number;
use history_text::Draft;
use link_service::{Place, Service};
use std::alloc::Global;

/// The words so far, with the names and the state that they are about.
#[derive(Drop)]
pub(crate) struct Telling<'h> {
    draft: &'h Draft,
    pub(crate) service: &'h Service,
    text: Vec<u8>,
}

impl<'h> Telling<'h> {
    pub(crate) fn new(alloc: Global, draft: &'h Draft, service: &'h Service) -> Telling<'h> {
        Telling {
            draft,
            service,
            text: Vec::new(alloc),
        }
    }

    pub(crate) fn into_text(self) -> Vec<u8> {
        self.text
    }

    pub(crate) fn buffer(&mut self) -> &mut Vec<u8> {
        &mut self.text
    }

    pub(crate) fn words(&mut self, words: &[u8]) -> Result<(), NoMemory> {
        self.text.extend_from_slice(words)?;
        Ok(())
    }

    pub(crate) fn number(&mut self, number: u64) -> Result<(), NoMemory> {
        push_number(&mut self.text, number)
    }

    pub(crate) fn process(&mut self, p: Pid) -> Result<(), NoMemory> {
        let name = self.draft.name_of_process(p);
        self.words(name)
    }

    /// An end, as `mail.a`.
    pub(crate) fn end(&mut self, e: EndId) -> Result<(), NoMemory> {
        let name = self.draft.name_of_link(e.link);
        self.words(name)?;
        match e.side {
            Side::A => self.words(b".a"),
            Side::B => self.words(b".b"),
        }
    }

    /// Words, and an end behind them.
    pub(crate) fn of_end(&mut self, words: &[u8], e: EndId) -> Result<(), NoMemory> {
        self.words(words)?;
        self.end(e)
    }

    /// Message n of an end.
    pub(crate) fn message(&mut self, n: u32, e: EndId) -> Result<(), NoMemory> {
        self.words(b"message ")?;
        self.number(u64::from(n))?;
        self.of_end(b" of ", e)
    }

    /// Where an end is.
    pub(crate) fn place(&mut self, e: EndId) -> Result<(), NoMemory> {
        match self.service.place(e) {
            Place::Owned(p) => {
                self.end(e)?;
                self.words(b" is owned by ")?;
                self.process(p)
            }
            Place::InMessage(on, n) => {
                self.end(e)?;
                self.words(b" is in ")?;
                self.message(n, on)
            }
            Place::Destroyed => {
                self.end(e)?;
                self.words(b" is destroyed")
            }
            Place::Unmade => self.words(b"there is no such link"),
        }
    }

    pub(crate) fn noticed(&mut self, e: EndId) -> Result<(), NoMemory> {
        self.of_end(b"the death of the link was noticed at ", e)
    }

    /// Whether a Cancel of an end waits.
    pub(crate) fn flag(&mut self, waits: bool, e: EndId) -> Result<(), NoMemory> {
        if waits {
            self.of_end(b"a Cancel of ", e)?;
        } else {
            self.of_end(b"no Cancel of ", e)?;
        }
        self.words(b" waits")
    }
}
