ghost use Rattle.std.specs.Prelude.{◌≡◌, ◌≤◌, ◌<◌, ◌^◌, [], ◌∷◌, ◌++◌, ℕ, List, OnOk, OnErr, IfOk, length, take, map, codes, option_copied};
ghost use Rattle.charlotte_text.specs.Spelling.{number_text, end_text, ends_text, most_ends, plus_text, process_text, side_text, IsEnd, blank};
ghost use Rattle.std.specs.List.{AllByRecursion};
ghost use Rattle.charlotte_text.specs.Reading.{Gives, process_of, side_of, end_of, plus_end_of, ends_of, rest_parts};

use crate::fault::Fault;
use crate::number::{Number, push_number, read_below, read_number};
use crate::part::{cut, end_of_parts, next_part};
use arrayvec::ArrayVec;
use charlotte_calls::{EndId, Ends, LinkId, NoMemory, Pid, Side};

/// Appends an end, as `0.1b`.
pub fn push_end(out: &mut Vec<u8>, end: EndId) -> Result<(), NoMemory>
    ensures ok { OnOk result (out.new.items ≡ out.old.items ++ end_text end) }
    ensures err { OnErr result (out.new.items ≡ out.old.items) }
{
    if end.link.maker < 10 && end.link.count < 10 {
        return push_short(out, end);
    }
    let start = out.len();
    let pushed = push_parts(out, end);
    if pushed.is_err() {
        out.truncate(start);
    }
    pushed
}

// Of most ends maker and count have one digit, and they are appended at once.
#[tactic(auto, using(std::proofs::lemmas::Fmt::decimal_digit))]
fn push_short(out: &mut Vec<u8>, end: EndId) -> Result<(), NoMemory>
    requires maker { end.link.maker < 10 }
    requires count { end.link.count < 10 }
    ensures ok { OnOk result (out.new.items ≡ out.old.items ++ end_text end) }
    ensures err { OnErr result (out.new.items ≡ out.old.items) }
{
    let maker = b'0' + end.link.maker;
    let count = b'0' + end.link.count as u8;
    out.extend_from_slice(&[maker, b'.', count, letter(end.side)])?;
    Ok(())
}

fn letter(side: Side) -> u8
    ensures { result ∷ [] ≡ side_text side }
{
    match side {
        Side::A => b'a',
        Side::B => b'b',
    }
}

fn push_parts(out: &mut Vec<u8>, end: EndId) -> Result<(), NoMemory>
    ensures ok { OnOk result (out.new.items ≡ out.old.items ++ end_text end) }
    ensures err { OnErr result (take (length out.old.items) out.new.items ≡ out.old.items) }
{
    push_maker(out, end.link.maker)?;
    push_number(out, u64::from(end.link.count))?;
    out.push(letter(end.side))?;
    Ok(())
}

/// The maker and its dot.
fn push_maker(out: &mut Vec<u8>, maker: u8) -> Result<(), NoMemory>
    ensures ok { OnOk result (out.new.items ≡ out.old.items ++ (number_text maker ++ codes ".")) }
    ensures err { OnErr result (take (length out.old.items) out.new.items ≡ out.old.items) }
{
    if maker < 10 {
        out.extend_from_slice(&[b'0' + maker, b'.'])?;
    } else {
        push_number(out, u64::from(maker))?;
        out.push(b'.')?;
    }
    Ok(())
}

/// Appends the ends of a message, each behind a blank and a plus.
pub fn push_ends(out: &mut Vec<u8>, ends: &[EndId]) -> Result<(), NoMemory>
    ensures ok { OnOk result (out.new.items ≡ out.old.items ++ ends_text ends.now) }
    ensures err { OnErr result (out.new.items ≡ out.old.items) }
{
    let start = out.len();
    let pushed = push_each(out, ends);
    if pushed.is_err() {
        out.truncate(start);
    }
    pushed
}

fn push_each(out: &mut Vec<u8>, ends: &[EndId]) -> Result<(), NoMemory>
    ensures ok { OnOk result (out.new.items ≡ out.old.items ++ ends_text ends.now) }
    ensures err { OnErr result (take (length out.old.items) out.new.items ≡ out.old.items) }
{
    for end in ends {
        out.extend_from_slice(b" +")?;
        push_end(out, *end)?;
    }
    Ok(())
}

/// Appends a process, as `p7`.
pub fn push_process(out: &mut Vec<u8>, process: Pid) -> Result<(), NoMemory>
    ensures ok { OnOk result (out.new.items ≡ out.old.items ++ process_text process) }
    ensures err { OnErr result (out.new.items ≡ out.old.items) }
{
    let start = out.len();
    let pushed = push_process_parts(out, process);
    if pushed.is_err() {
        out.truncate(start);
    }
    pushed
}

fn push_process_parts(out: &mut Vec<u8>, process: Pid) -> Result<(), NoMemory>
    ensures ok { OnOk result (out.new.items ≡ out.old.items ++ process_text process) }
    ensures err { OnErr result (take (length out.old.items) out.new.items ≡ out.old.items) }
{
    out.push(b'p')?;
    push_number(out, u64::from(process.0))?;
    Ok(())
}

/// The number of the process that a word names, as 7 of `p7`. It may be of any size.
pub fn read_process(word: &[u8]) -> Result<Number, Fault>
    ensures exact { result ≡ process_of word.now }
    ensures found { (p : Pid) → result ≡ Ok (Number.Is p.0) → word.now ≡ process_text p }
    ensures only { (p : Pid) → p.0 < 2 ^ 64 → word.now ≡ process_text p → result ≡ Ok (Number.Is p.0) }
{
    parse_process(word)
}

#[tactic(auto, unfolding(crate::specs::Reading::process_of))]
fn parse_process(word: &[u8]) -> Result<Number, Fault>
    ensures { result ≡ process_of word.now }
{
    match word {
        [b'p', number @ ..] => read_number(number),
        _ => Err(Fault::Form),
    }
}

/// The end that a word names.
pub fn read_end(word: &[u8]) -> Result<EndId, Fault>
    ensures exact { result ≡ end_of word.now }
    ensures found { IfOk result (λ e. word.now ≡ end_text e) }
    ensures only { (e : EndId) → IsEnd e → word.now ≡ end_text e → result ≡ Ok e }
{
    parse_end(word)
}

#[tactic(auto, unfolding(crate::specs::Reading::end_of))]
fn parse_end(word: &[u8]) -> Result<EndId, Fault>
    ensures { result ≡ end_of word.now }
{
    let (maker, rest) = cut(b'.', word);
    let (tail, rest) = next_part(b'.', rest)?;
    end_of_parts(b'.', rest)?;
    let (count, side) = split_side(tail)?;
    let maker = read_below(maker, 256)? as u8;
    let count = read_below(count, 4_294_967_296)? as u32;
    Ok(EndId {
        link: LinkId { maker, count },
        side,
    })
}

#[tactic(auto, unfolding(crate::specs::Reading::side_of))]
fn split_side(word: &[u8]) -> Result<(&[u8], Side), Fault>
    ensures { Gives (λ x. (x.0.now, x.1)) result (side_of word.now) }
{
    match word.split_last() {
        Some((b'a', count)) => Ok((count, Side::A)),
        Some((b'b', count)) => Ok((count, Side::B)),
        _ => Err(Fault::Form),
    }
}

/// How many ends a message or values a packet may have in a version: one in version 1, else eight.
pub fn most_ends(version: u8) -> usize
    ensures exact { result ≡ most_ends version }
    ensures within { result ≤ 8 }
{
    if version == 1 { 1 } else { 8 }
}

/// The ends that the words name of which this is left, each behind a plus. `Form` where they are more than `most`.
pub fn read_ends(words: Option<&[u8]>, most: usize) -> Result<Ends, Fault>
    requires { most ≤ 8 }
    ensures exact { result ≡ ends_of most (rest_parts blank (option_copied words.entry)) }
    ensures found { IfOk result (λ es. rest_parts blank (option_copied words.entry) ≡ map plus_text es) }
    ensures only { (es : List EndId) → AllByRecursion IsEnd es → length es ≤ most → rest_parts blank (option_copied words.entry) ≡ map plus_text es → result ≡ Ok es }
{
    parse_ends(words, most)
}

fn parse_ends(words: Option<&[u8]>, most: usize) -> Result<Ends, Fault>
    requires { most ≤ 8 }
    ensures { result ≡ ends_of most (rest_parts blank (option_copied words.entry)) }
{
    let mut ends = ArrayVec::<EndId, 8>::new();
    let mut rest = words;
    while let Some(text) = rest {
        if most <= ends.len() {
            return Err(Fault::Form);
        }
        let (word, after) = cut(b' ', text);
        ends.push(parse_plus_end(word)?);
        rest = after;
    }
    Ends::from_slice(ends.as_slice()).ok_or(Fault::Form)
}

#[tactic(auto, unfolding(crate::specs::Reading::plus_end_of))]
fn parse_plus_end(word: &[u8]) -> Result<EndId, Fault>
    ensures { result ≡ plus_end_of word.now }
{
    match word {
        [b'+', end @ ..] => parse_end(end),
        _ => Err(Fault::Form),
    }
}
