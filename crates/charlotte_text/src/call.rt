ghost use Rattle.std.specs.Prelude.{◌≡◌, ◌++◌, OnOk, OnErr, length, take};
ghost use Rattle.std.specs.Prelude.{option_copied, Some, IfOk};
ghost use Rattle.charlotte_text.specs.Spelling.{end_text, way_text, call_text, IsCall, blank};
ghost use Rattle.charlotte_text.specs.Reading.{Puts, way_of, keyword_of, only_end_of, send_of, cancel_of, print_of, operands_of, call_of, rest_parts};

use crate::fault::Fault;
use crate::name::{most_ends, push_end, push_ends, read_end, read_ends};
use crate::part::{end_of_line, is_word, next_word};
use crate::text::{plain_bytes, push_bytes, read_bytes};
use charlotte_calls::{Call, EndId, NoMemory, Way};

/// The first word of a call.
#[derive(Clone, Copy)]
pub(crate) enum Keyword {
    Make,
    Destroy,
    Send,
    Receive,
    Cancel,
    Wait,
    Print,
    Exit,
}

/// Appends the direction of an activity, `in` or `out`.
pub fn push_way(out: &mut Vec<u8>, way: Way) -> Result<(), NoMemory>
    ensures ok { OnOk result (out.new.items ≡ out.old.items ++ way_text way) }
    ensures err { OnErr result (out.new.items ≡ out.old.items) }
{
    match way {
        Way::Inward => out.extend_from_slice(b"in")?,
        Way::Outward => out.extend_from_slice(b"out")?,
    }
    Ok(())
}

/// Appends a call, as `send 0.0a hello +0.1a`.
pub fn push_call(out: &mut Vec<u8>, call: &Call) -> Result<(), NoMemory>
    ensures ok { OnOk result (out.new.items ≡ out.old.items ++ call_text call.now) }
    ensures err { OnErr result (out.new.items ≡ out.old.items) }
{
    let start = out.len();
    let pushed = push_parts(out, call);
    if pushed.is_err() {
        out.truncate(start);
    }
    pushed
}

fn push_parts(out: &mut Vec<u8>, call: &Call) -> Result<(), NoMemory>
    ensures ok { OnOk result (out.new.items ≡ out.old.items ++ call_text call.now) }
    ensures err { OnErr result (take (length out.old.items) out.new.items ≡ out.old.items) }
{
    match call {
        Call::Make => out.extend_from_slice(b"make")?,
        Call::Destroy { on } => push_on(out, b"destroy ", *on)?,
        Call::Send { on, bytes, enclose } => {
            push_on(out, b"send ", *on)?;
            out.push(b' ')?;
            push_bytes(out, bytes.as_slice())?;
            push_ends(out, enclose.as_slice())?;
        }
        Call::Receive { on } => push_on(out, b"receive ", *on)?,
        Call::Cancel { on, way } => {
            push_on(out, b"cancel ", *on)?;
            out.push(b' ')?;
            push_way(out, *way)?;
        }
        Call::Wait => out.extend_from_slice(b"wait")?,
        Call::Print { bytes } => {
            out.extend_from_slice(b"print ")?;
            push_bytes(out, bytes.as_slice())?;
        }
        Call::Exit => out.extend_from_slice(b"exit")?,
    }
    Ok(())
}

/// A keyword with its blank, and an end.
fn push_on(out: &mut Vec<u8>, keyword: &[u8], end: EndId) -> Result<(), NoMemory>
    ensures ok { OnOk result (out.new.items ≡ out.old.items ++ keyword.now ++ end_text end) }
    ensures err { OnErr result (take (length out.old.items) out.new.items ≡ out.old.items) }
{
    out.extend_from_slice(keyword)?;
    push_end(out, end)?;
    Ok(())
}

/// The call that the words spell of which this is left. A message encloses at most one end in version 1, and eight in
/// version 2. `Long` where the form of each word is right, and a text spells more than 256 bytes.
pub fn read_call(words: Option<&[u8]>, version: u8) -> Result<Call, Fault>
    ensures exact { result ≡ call_of version (rest_parts blank (option_copied words.entry)) }
    ensures found { IfOk result (λ call. option_copied words.entry ≡ Some (call_text call)) }
    ensures fits { IfOk result (IsCall version) }
    ensures only { (call : Call) → IsCall version call → option_copied words.entry ≡ Some (call_text call) → result ≡ Ok call }
{
    parse_call(words, version)
}

fn parse_call(words: Option<&[u8]>, version: u8) -> Result<Call, Fault>
    ensures { result ≡ call_of version (rest_parts blank (option_copied words.entry)) }
{
    let mut call = Call::Make;
    read_call_into(words, version, &mut call)?;
    Ok(call)
}

/// As `read_call`, with the call in the place of one that is there. Where there is a fault nothing is said of that place.
#[tactic(auto, unfolding(crate::specs::Reading::call_of))]
pub fn read_call_into(words: Option<&[u8]>, version: u8, call: &mut Call) -> Result<(), Fault>
    ensures { Puts result call.new (call_of version (rest_parts blank (option_copied words.entry))) }
{
    let (word, rest) = next_word(words)?;
    let keyword = read_keyword(word)?;
    read_operands(keyword, rest, version, call)
}

#[tactic(auto, unfolding(crate::specs::Reading::keyword_of))]
fn read_keyword(word: &[u8]) -> Result<Keyword, Fault>
    ensures { result ≡ keyword_of word.now }
{
    if is_word(word, b"make") {
        Ok(Keyword::Make)
    } else if is_word(word, b"destroy") {
        Ok(Keyword::Destroy)
    } else if is_word(word, b"send") {
        Ok(Keyword::Send)
    } else if is_word(word, b"receive") {
        Ok(Keyword::Receive)
    } else if is_word(word, b"cancel") {
        Ok(Keyword::Cancel)
    } else if is_word(word, b"wait") {
        Ok(Keyword::Wait)
    } else if is_word(word, b"print") {
        Ok(Keyword::Print)
    } else if is_word(word, b"exit") {
        Ok(Keyword::Exit)
    } else {
        Err(Fault::Form)
    }
}

#[tactic(auto, unfolding(crate::specs::Reading::operands_of))]
fn read_operands(
    keyword: Keyword,
    rest: Option<&[u8]>,
    version: u8,
    call: &mut Call,
) -> Result<(), Fault>
    ensures { Puts result call.new (operands_of version keyword (rest_parts blank (option_copied rest.entry))) }
{
    match keyword {
        Keyword::Make => {
            end_of_line(rest)?;
            *call = Call::Make;
        }
        Keyword::Destroy => {
            let on = read_only_end(rest)?;
            *call = Call::Destroy { on };
        }
        Keyword::Send => read_send(rest, version, call)?,
        Keyword::Receive => {
            let on = read_only_end(rest)?;
            *call = Call::Receive { on };
        }
        Keyword::Cancel => read_cancel(rest, call)?,
        Keyword::Wait => {
            end_of_line(rest)?;
            *call = Call::Wait;
        }
        Keyword::Print => read_print(rest, call)?,
        Keyword::Exit => {
            end_of_line(rest)?;
            *call = Call::Exit;
        }
    }
    Ok(())
}

#[tactic(auto, unfolding(crate::specs::Reading::only_end_of))]
fn read_only_end(rest: Option<&[u8]>) -> Result<EndId, Fault>
    ensures { result ≡ only_end_of (rest_parts blank (option_copied rest.entry)) }
{
    let (end, rest) = next_word(rest)?;
    let on = read_end(end)?;
    end_of_line(rest)?;
    Ok(on)
}

#[tactic(auto, unfolding(crate::specs::Reading::send_of))]
fn read_send(rest: Option<&[u8]>, version: u8, call: &mut Call) -> Result<(), Fault>
    ensures { Puts result call.new (send_of version (rest_parts blank (option_copied rest.entry))) }
{
    let (end, rest) = next_word(rest)?;
    let on = read_end(end)?;
    let (text, rest) = next_word(rest)?;
    let enclose = read_ends(rest, most_ends(version))?;
    if let Some(bytes) = plain_bytes(text) {
        *call = Call::Send { on, bytes, enclose };
        return Ok(());
    }
    let bytes = read_bytes(text)?;
    *call = Call::Send { on, bytes, enclose };
    Ok(())
}

#[tactic(auto, unfolding(crate::specs::Reading::cancel_of))]
fn read_cancel(rest: Option<&[u8]>, call: &mut Call) -> Result<(), Fault>
    ensures { Puts result call.new (cancel_of (rest_parts blank (option_copied rest.entry))) }
{
    let (end, rest) = next_word(rest)?;
    let on = read_end(end)?;
    let (word, rest) = next_word(rest)?;
    let way = parse_way(word)?;
    end_of_line(rest)?;
    *call = Call::Cancel { on, way };
    Ok(())
}

#[tactic(auto, unfolding(crate::specs::Reading::print_of))]
fn read_print(rest: Option<&[u8]>, call: &mut Call) -> Result<(), Fault>
    ensures { Puts result call.new (print_of (rest_parts blank (option_copied rest.entry))) }
{
    let (text, rest) = next_word(rest)?;
    end_of_line(rest)?;
    if let Some(bytes) = plain_bytes(text) {
        *call = Call::Print { bytes };
        return Ok(());
    }
    let bytes = read_bytes(text)?;
    *call = Call::Print { bytes };
    Ok(())
}

/// The direction that a word names, `in` or `out`.
pub fn read_way(word: &[u8]) -> Result<Way, Fault>
    ensures exact { result ≡ way_of word.now }
    ensures found { IfOk result (λ way. word.now ≡ way_text way) }
    ensures only { (way : Way) → word.now ≡ way_text way → result ≡ Ok way }
{
    parse_way(word)
}

#[tactic(auto, unfolding(crate::specs::Reading::way_of))]
fn parse_way(word: &[u8]) -> Result<Way, Fault>
    ensures { result ≡ way_of word.now }
{
    if is_word(word, b"in") {
        Ok(Way::Inward)
    } else if is_word(word, b"out") {
        Ok(Way::Outward)
    } else {
        Err(Fault::Form)
    }
}
