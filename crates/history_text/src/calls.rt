//! Calls that were refused.
ghost use Rattle.std.specs.Prelude.{◌≡◌};
ghost use Rattle.history_text.specs.Forms.{call_of, named_call_of, send_call_of};

use crate::draft::Draft;
use crate::stage::Scope;
use crate::words::{Words, is_this};
use charlotte_calls::Call;
use charlotte_text::Fault;

impl Draft {
    /// All words that are left, a call.
    #[tactic(auto, unfolding(crate::specs::Forms::call_of))]
    pub(crate) fn call(&self, mut words: Words<'_>) -> Result<Call, Fault>
        ensures { result ≡ call_of self.now words.entry }
    {
        let word = words.next()?;
        self.named_call(word, words)
    }

    #[tactic(auto, unfolding(crate::specs::Forms::named_call_of))]
    fn named_call(&self, word: &[u8], words: Words<'_>) -> Result<Call, Fault>
        ensures { result ≡ named_call_of self.now word.now words.entry }
    {
        if is_this(word, b"make") {
            words.finish()?;
            Ok(Call::Make)
        } else if is_this(word, b"destroy") {
            let on = self.only_end(Scope::Call, words)?;
            Ok(Call::Destroy { on })
        } else if is_this(word, b"send") {
            self.send_call(words)
        } else if is_this(word, b"receive") {
            let on = self.only_end(Scope::Call, words)?;
            Ok(Call::Receive { on })
        } else if is_this(word, b"cancel") {
            let (on, way) = self.end_way(Scope::Call, words)?;
            Ok(Call::Cancel { on, way })
        } else if is_this(word, b"wait") {
            words.finish()?;
            Ok(Call::Wait)
        } else if is_this(word, b"exit") {
            words.finish()?;
            Ok(Call::Exit)
        } else {
            Err(Fault::Form)
        }
    }

    #[tactic(auto, unfolding(crate::specs::Forms::send_call_of, crate::specs::Forms::content_of))]
    fn send_call(&self, mut words: Words<'_>) -> Result<Call, Fault>
        ensures { result ≡ send_call_of self.now words.entry }
    {
        let on = self.end(Scope::Call, &mut words)?;
        let bytes = words.text()?;
        let enclose = self.ends(Scope::Call, words)?;
        Ok(Call::Send { on, bytes, enclose })
    }
}
