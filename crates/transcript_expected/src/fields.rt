//! What stands behind a name in the form of a line.
ghost use Rattle.std.specs.Prelude.{◌≡◌, OnOk, Some};
ghost use Rattle.transcript_expected.specs.Fields.{call_fields, fields_text, later_fields, listed, more_text, most_text, packet_fields, step_fields};
ghost use Rattle.transcript_expected.specs.declared.fields.More.TheVariants as more;
ghost use Rattle.transcript_shown.specs.Listing.{with_more};

use charlotte_calls::NoMemory;
use charlotte_text::is_word;
use std::marker::Model;
use transcript_shown::Listing;

/// The fields behind a name.
#[derive(Drop)]
pub(crate) struct Fields {
    text: &'static [u8],
    more: More,
}

impl Model for Fields {
    ghost use Rattle.transcript_expected.specs.Fields.{FieldsView};

    ghost Value = { FieldsView };

    ghost view = { λ f. record { text = f.text.now; more = f.more } };
}

/// What may stand behind them.
#[derive(Clone, Copy, Debug, PartialEq, Eq)]
pub(crate) enum More {
    Nothing,
    Ends,
    Values,
}

fn plain(text: &'static [u8]) -> Option<Fields>
    ensures { result ≡ Some (record { text = text.now; more = more.Nothing }) }
{
    Some(Fields {
        text,
        more: More::Nothing,
    })
}

fn with_ends(text: &'static [u8]) -> Option<Fields>
    ensures { result ≡ Some (record { text = text.now; more = more.Ends }) }
{
    Some(Fields {
        text,
        more: More::Ends,
    })
}

fn with_values(text: &'static [u8]) -> Option<Fields>
    ensures { result ≡ Some (record { text = text.now; more = more.Values }) }
{
    Some(Fields {
        text,
        more: More::Values,
    })
}

/// The fields of a call of this name, if there is one.
#[tactic(auto, unfolding(crate::specs::Fields::call_fields))]
pub(crate) fn call_fields(name: &[u8]) -> Option<Fields>
    ensures { result ≡ call_fields name.now }
{
    if is_word(name, b"make") {
        plain(b"")
    } else if is_word(name, b"destroy") {
        plain(b" END")
    } else if is_word(name, b"send") {
        with_ends(b" END TEXT")
    } else if is_word(name, b"receive") {
        plain(b" END")
    } else if is_word(name, b"cancel") {
        plain(b" END WAY")
    } else if is_word(name, b"wait") {
        plain(b"")
    } else if is_word(name, b"print") {
        plain(b" TEXT")
    } else if is_word(name, b"exit") {
        plain(b"")
    } else {
        None
    }
}

/// The fields of a packet of this name, if there is one.
#[tactic(auto, unfolding(crate::specs::Fields::packet_fields))]
pub(crate) fn packet_fields(name: &[u8]) -> Option<Fields>
    ensures { result ≡ packet_fields name.now }
{
    if is_word(name, b"want") {
        plain(b" END W AT HOPS")
    } else if is_word(name, b"unwant") {
        plain(b" END W AT HOPS")
    } else if is_word(name, b"unwanted") {
        plain(b" END W AT HOPS")
    } else if is_word(name, b"parcel") {
        with_values(b" END N W AT HOPS TEXT")
    } else if is_word(name, b"taken") {
        plain(b" END N AT HOPS")
    } else if is_word(name, b"back") {
        with_values(b" END N")
    } else if is_word(name, b"gone") {
        plain(b" END AT")
    } else if is_word(name, b"moved") {
        plain(b" END AT HOPS")
    } else if is_word(name, b"known") {
        plain(b" END HOPS")
    } else if is_word(name, b"forget") {
        plain(b" END HOPS")
    } else if is_word(name, b"goneseen") {
        plain(b" END")
    } else {
        None
    }
}

/// The fields of a service step of this name, if there is one.
#[tactic(auto, unfolding(crate::specs::Fields::step_fields))]
pub(crate) fn step_fields(name: &[u8]) -> Option<Fields>
    ensures { result ≡ step_fields name.now }
{
    if is_word(name, b"make") {
        plain(b" END END")
    } else if is_word(name, b"refuse") {
        plain(b" pP CAUSE")
    } else if is_word(name, b"destroy") {
        plain(b" END")
    } else if is_word(name, b"send") {
        with_ends(b" END N")
    } else if is_word(name, b"receive") {
        plain(b" END")
    } else if is_word(name, b"cancel") {
        plain(b" END WAY")
    } else if is_word(name, b"wait") {
        plain(b" pP")
    } else if is_word(name, b"report") {
        plain(b" pP END RESULT")
    } else {
        later_fields(name)
    }
}

/// The same of an exit, and of the steps that are no calls of a process.
#[tactic(auto, unfolding(crate::specs::Fields::later_fields))]
fn later_fields(name: &[u8]) -> Option<Fields>
    ensures { result ≡ later_fields name.now }
{
    if is_word(name, b"exit") {
        plain(b" pP")
    } else if is_word(name, b"match") {
        plain(b" END N")
    } else if is_word(name, b"take") {
        plain(b" END N pP[ late]")
    } else if is_word(name, b"complete") {
        plain(b" END N")
    } else if is_word(name, b"back") {
        plain(b" END N[ dead]")
    } else if is_word(name, b"withdraw") {
        plain(b" END")
    } else if is_word(name, b"notice") {
        plain(b" END[ dead]")
    } else if is_word(name, b"free") {
        plain(b" END")
    } else {
        None
    }
}

/// Appends the fields behind a name; ends and values may stand as often as a version allows.
pub(crate) fn push_fields(out: &mut Listing, version: u8, fields: Fields) -> Result<(), NoMemory>
    ensures { OnOk result (out.new ≡ with_more (fields_text version fields) out.old) }
{
    out.append(fields.text)?;
    push_more(out, version, fields.more)?;
    Ok(())
}

#[tactic(auto, using(transcript_shown::proofs::Listings::no_more))]
fn push_more(out: &mut Listing, version: u8, more: More) -> Result<(), NoMemory>
    ensures { OnOk result (out.new ≡ with_more (more_text version more) out.old) }
{
    match more {
        More::Nothing => Ok(()),
        More::Ends => push_listed(out, version, b"[ +END"),
        More::Values => push_listed(out, version, b"[ +VALUE"),
    }
}

/// Appends that this may stand once in version 1, and else up to eight times.
fn push_listed(out: &mut Listing, version: u8, what: &[u8]) -> Result<(), NoMemory>
    ensures { OnOk result (out.new ≡ with_more (listed version what.now) out.old) }
{
    out.append(what)?;
    out.append(most_text(version))?;
    Ok(())
}

fn most_text(version: u8) -> &'static [u8]
    ensures { result.now ≡ most_text version }
{
    if version == 1 { b"]" } else { b" ..8]" }
}
