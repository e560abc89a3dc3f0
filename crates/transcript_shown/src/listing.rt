//! Texts of several items.
ghost use Rattle.std.specs.Prelude.{◌≡◌, [], OnOk};
ghost use Rattle.charlotte_text.specs.Spelling.{number_text};
ghost use Rattle.transcript_shown.specs.Listing.{marked, with_item, with_more};

use charlotte_calls::NoMemory;
use charlotte_text::push_number;
use std::alloc::Global;
use std::marker::Model;

/// A text of items, with a mark between each two.
#[derive(Debug, Drop)]
pub struct Listing {
    text: Vec<u8>,
    mark: &'static [u8],
}

impl Model for Listing {
    ghost use Rattle.transcript_shown.specs.Listing.{ListingView};

    ghost Value = { ListingView };

    ghost view = { λ l. record { text = l.text.items; mark = l.mark.now } };
}

impl Listing {
    /// A text of no items.
    pub fn new(alloc: Global, mark: &'static [u8]) -> Listing
        ensures { result ≡ record { text = []; mark = mark.now } }
    {
        Listing {
            text: Vec::new(alloc),
            mark,
        }
    }

    /// Appends bytes to the last item.
    pub fn append(&mut self, bytes: &[u8]) -> Result<(), NoMemory>
        ensures { OnOk result (self.new ≡ with_more bytes.now self.old) }
    {
        self.text.extend_from_slice(bytes)?;
        Ok(())
    }

    /// Appends a number to the last item.
    pub fn append_number(&mut self, number: u64) -> Result<(), NoMemory>
        ensures { OnOk result (self.new ≡ with_more (number_text number) self.old) }
    {
        push_number(&mut self.text, number)?;
        Ok(())
    }

    /// Adds an item.
    pub fn add(&mut self, item: &[u8]) -> Result<(), NoMemory>
        ensures { OnOk result (self.new ≡ with_item item.now self.old) }
    {
        self.begin()?;
        self.append(item)?;
        Ok(())
    }

    /// Puts the mark behind what is there.
    #[tactic(auto, using(crate::proofs::Listings::marked_none, crate::proofs::Listings::marked_some))]
    fn begin(&mut self) -> Result<(), NoMemory>
        ensures { OnOk result (self.new ≡ record { text = marked self.old.mark self.old.text; mark = self.old.mark }) }
    {
        if self.text.is_empty() {
            return Ok(());
        }
        self.text.extend_from_slice(self.mark)?;
        Ok(())
    }

    /// The text.
    pub fn into_text(self) -> Vec<u8>
        ensures { result.items ≡ self.text }
    {
        let Listing { text, mark: _ } = self;
        text
    }
}
