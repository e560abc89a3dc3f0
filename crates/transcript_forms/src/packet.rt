//! Packets and the values of ends that they carry.
ghost use Rattle.std.specs.Prelude.{◌≡◌, ◌≤◌};
ghost use Rattle.charlotte_packets.specs.declared.picture.PictureWhat.TheVariants as packet;
ghost use Rattle.charlotte_text.specs.Reading.{end_of};
ghost use Rattle.charlotte_text.specs.Spelling.{most_ends};
ghost use Rattle.transcript_forms.specs.Cursor.{only_as, end_number_as, wanted_as};
ghost use Rattle.transcript_reading.specs.Forms.{value_of, plus_value_of, values_of, wanted_of, parcel_of, back_of, gone_of, moved_of, end_number_of, named_packet_of, packet_of};

use crate::fields::Fields;
use crate::words::Words;
use arrayvec::ArrayVec;
use charlotte_calls::EndId;
use charlotte_packets::{CargoPicture, MovingPicture, PictureWhat};
use charlotte_text::{Fault, is_word, most_ends};

/// The words of a packet, from its name on.
#[tactic(auto, unfolding(transcript_reading::specs::Forms::packet_of))]
pub(crate) fn read_packet(version: u8, mut words: Words<'_>) -> Result<PictureWhat, Fault>
    ensures { result ≡ packet_of version words.entry }
{
    let Some(name) = words.pop() else {
        return Err(Fault::Form);
    };
    read_named(version, name, words)
}

#[tactic(auto, unfolding(transcript_reading::specs::Forms::named_packet_of))]
fn read_named(version: u8, name: &[u8], words: Words<'_>) -> Result<PictureWhat, Fault>
    ensures { result ≡ named_packet_of version name.now words.entry }
{
    if is_word(name, b"want") {
        read_want(words)
    } else if is_word(name, b"unwant") {
        read_unwant(words)
    } else if is_word(name, b"unwanted") {
        read_unwanted(words)
    } else if is_word(name, b"parcel") {
        read_parcel(version, words)
    } else if is_word(name, b"taken") {
        read_taken(words)
    } else if is_word(name, b"back") {
        read_back(version, words)
    } else if is_word(name, b"gone") {
        read_gone(words)
    } else if is_word(name, b"moved") {
        read_moved(words)
    } else if is_word(name, b"known") {
        read_known(words)
    } else if is_word(name, b"forget") {
        read_forget(words)
    } else if is_word(name, b"goneseen") {
        read_gone_seen(words)
    } else {
        Err(Fault::Form)
    }
}

/// `T W J H`.
#[tactic(auto, unfolding(transcript_reading::specs::Forms::wanted_of))]
fn read_wanted(mut words: Words<'_>) -> Result<(EndId, u32, u8, u32), Fault>
    ensures { result ≡ wanted_of words.entry }
{
    let to = words.end()?;
    let number = words.u32()?;
    let at = words.u8()?;
    let hops = words.u32()?;
    words.finish()?;
    Ok((to, number, at, hops))
}

fn read_want(words: Words<'_>) -> Result<PictureWhat, Fault>
    ensures { result ≡ wanted_as (λ to n at hops. packet.Want to n at hops) words.entry }
{
    let (to, w, at, hops) = read_wanted(words)?;
    Ok(PictureWhat::Want { to, w, at, hops })
}

fn read_unwant(words: Words<'_>) -> Result<PictureWhat, Fault>
    ensures { result ≡ wanted_as (λ to n at hops. packet.Unwant to n at hops) words.entry }
{
    let (to, w, at, hops) = read_wanted(words)?;
    Ok(PictureWhat::Unwant { to, w, at, hops })
}

fn read_unwanted(words: Words<'_>) -> Result<PictureWhat, Fault>
    ensures { result ≡ wanted_as (λ to n at hops. packet.Unwanted to n at hops) words.entry }
{
    let (to, w, at, hops) = read_wanted(words)?;
    Ok(PictureWhat::Unwanted { to, w, at, hops })
}

fn read_taken(words: Words<'_>) -> Result<PictureWhat, Fault>
    ensures { result ≡ wanted_as (λ to n at hops. packet.Taken to n at hops) words.entry }
{
    let (to, n, at, hops) = read_wanted(words)?;
    Ok(PictureWhat::Taken { to, n, at, hops })
}

/// `T N W J H TEXT` and values.
#[tactic(auto, unfolding(transcript_reading::specs::Forms::parcel_of))]
fn read_parcel(version: u8, mut words: Words<'_>) -> Result<PictureWhat, Fault>
    ensures { result ≡ parcel_of version words.entry }
{
    let to = words.end()?;
    let n = words.u32()?;
    let w = words.u32()?;
    let at = words.u8()?;
    let hops = words.u32()?;
    let bytes = words.bytes()?;
    let moving = read_values(version, words)?;
    Ok(PictureWhat::Parcel {
        to,
        n,
        w,
        at,
        hops,
        bytes,
        moving,
    })
}

/// `T N` and values.
#[tactic(auto, unfolding(transcript_reading::specs::Forms::back_of))]
fn read_back(version: u8, mut words: Words<'_>) -> Result<PictureWhat, Fault>
    ensures { result ≡ back_of version words.entry }
{
    let to = words.end()?;
    let n = words.u32()?;
    let moving = read_values(version, words)?;
    Ok(PictureWhat::Back { to, n, moving })
}

/// `T J`.
#[tactic(auto, unfolding(transcript_reading::specs::Forms::gone_of))]
fn read_gone(mut words: Words<'_>) -> Result<PictureWhat, Fault>
    ensures { result ≡ gone_of words.entry }
{
    let to = words.end()?;
    let at = words.u8()?;
    words.finish()?;
    Ok(PictureWhat::Gone { to, at })
}

/// `T J H`.
#[tactic(auto, unfolding(transcript_reading::specs::Forms::moved_of))]
fn read_moved(mut words: Words<'_>) -> Result<PictureWhat, Fault>
    ensures { result ≡ moved_of words.entry }
{
    let to = words.end()?;
    let at = words.u8()?;
    let hops = words.u32()?;
    words.finish()?;
    Ok(PictureWhat::Moved { to, at, hops })
}

/// An end and a number.
#[tactic(auto, unfolding(transcript_reading::specs::Forms::end_number_of))]
pub(crate) fn read_end_number(mut words: Words<'_>) -> Result<(EndId, u32), Fault>
    ensures { result ≡ end_number_of words.entry }
{
    let on = words.end()?;
    let number = words.u32()?;
    words.finish()?;
    Ok((on, number))
}

fn read_known(words: Words<'_>) -> Result<PictureWhat, Fault>
    ensures { result ≡ end_number_as (λ to hops. packet.Known to hops) words.entry }
{
    let (to, hops) = read_end_number(words)?;
    Ok(PictureWhat::Known { to, hops })
}

fn read_forget(words: Words<'_>) -> Result<PictureWhat, Fault>
    ensures { result ≡ end_number_as (λ to hops. packet.Forget to hops) words.entry }
{
    let (to, hops) = read_end_number(words)?;
    Ok(PictureWhat::Forget { to, hops })
}

fn read_gone_seen(mut words: Words<'_>) -> Result<PictureWhat, Fault>
    ensures { result ≡ only_as (λ to. packet.GoneSeen to) end_of words.entry }
{
    let to = words.end()?;
    words.finish()?;
    Ok(PictureWhat::GoneSeen { to })
}

/// All words that are left, the values of ends, no more than a version has.
fn read_values(version: u8, words: Words<'_>) -> Result<CargoPicture, Fault>
    ensures { result ≡ values_of (most_ends version) words.entry }
{
    parse_values(most_ends(version), words)
}

fn parse_values(most: usize, words: Words<'_>) -> Result<CargoPicture, Fault>
    requires { most ≤ 8 }
    ensures { result ≡ values_of most words.entry }
{
    let mut rest = words;
    let mut values = ArrayVec::<MovingPicture, 8>::new();
    while let Some(word) = rest.pop() {
        if most <= values.len() {
            return Err(Fault::Form);
        }
        values.push(read_plus_value(word)?);
    }
    CargoPicture::from_slice(values.as_slice()).ok_or(Fault::Form)
}

#[tactic(auto, unfolding(transcript_reading::specs::Forms::plus_value_of))]
fn read_plus_value(word: &[u8]) -> Result<MovingPicture, Fault>
    ensures { result ≡ plus_value_of word.now }
{
    match word {
        [b'+', value @ ..] => read_value(value),
        _ => Err(Fault::Form),
    }
}

/// An end and nine numbers, between colons.
#[tactic(auto, unfolding(transcript_reading::specs::Forms::value_of))]
fn read_value(word: &[u8]) -> Result<MovingPicture, Fault>
    ensures { result ≡ value_of word.now }
{
    let mut fields = Fields::of(word);
    let end = fields.end()?;
    let hops = fields.u32()?;
    let hint_kernel = fields.u8()?;
    let hint_hops = fields.u32()?;
    let sent = fields.u32()?;
    let asked = fields.u32()?;
    let served = fields.u32()?;
    let want = fields.u32()?;
    let dead = fields.bit()?;
    let trail = fields.u8()?;
    fields.finish()?;
    Ok(MovingPicture {
        end,
        hops,
        hint: (hint_kernel, hint_hops),
        sent,
        asked,
        served,
        want,
        dead,
        trail,
    })
}
