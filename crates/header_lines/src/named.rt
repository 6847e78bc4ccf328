//! The words that `explain --names` prints behind numbers.

ghost use Rattle.std.specs.Prelude.{Some, map, ◌≡◌};
ghost use Rattle.std.specs.Fmt.{WritesOnOk};
ghost use Rattle.apdu.specs.Apdu.{apdu_of};
ghost use Rattle.apdu.specs.Sizes.{apdu_code};
ghost use Rattle.header_lines.specs.Text as spec;
ghost use Rattle.names.specs.Names.{name_in};
ghost use Rattle.names.specs.Tables.{row_of};
ghost use Rattle.npdu.specs.Header.{destination_of, header_of};
ghost use Rattle.parameters.specs.Notes.{note};
ghost use Rattle.tags.specs.Tag.{plain_tag};

use apdu::{Apdu, MaxApdu, MaxSegments, Segment};
use names::{Row, max_apdus, max_segments, name_in, network_priorities};
use npdu::{Destination, View};
use parameters::Note;
use printing::{Named, Spelling};
use std::fmt;

/// A number's name in a table behind a space, where names are asked for and it has one.
#[derive(Clone, Copy)]
pub struct Behind<'a> {
    pub spelling: Spelling,
    pub table: &'a [Row],
    pub number: u32,
}

impl fmt::Display for Behind<'_> {
    ghost output = { λ b. Some (spec.behind b.spelling (map row_of b.table.now) b.number) };

    #[tactic(auto, unfolding(crate::specs::Text::behind, crate::specs::Text::words_of))]
    fn fmt<W: fmt::Write>(&self, f: &mut fmt::Formatter<W>) -> fmt::Result {
        match self.spelling {
            Spelling::Numbers => Ok(()),
            Spelling::Names => fmt_name(self.table, self.number, f),
        }
    }
}

/// Prints a number's name in a table behind a space, where it has one.
fn fmt_name<W: fmt::Write>(table: &[Row], number: u32, f: &mut fmt::Formatter<W>) -> fmt::Result
    ensures { WritesOnOk W.write_str_gives f.old result
        (spec.name_words (name_in (map row_of table.now) number)) f.new }
{
    match name_in(table, number) {
        Some(name) => write!(f, " {name}"),
        None => Ok(()),
    }
}

/// Prints a word behind a space, where it holds.
fn fmt_if<W: fmt::Write>(holds: bool, word: &str, f: &mut fmt::Formatter<W>) -> fmt::Result
    ensures { WritesOnOk W.write_str_gives f.old result (spec.word_if holds word.now) f.new }
{
    if holds {
        return write!(f, " {word}");
    }
    Ok(())
}

/// The words of a control octet (6.2.2), where names are asked for.
#[derive(Clone, Copy)]
pub struct ControlWords<'a> {
    pub spelling: Spelling,
    pub view: &'a View<'a>,
}

impl fmt::Display for ControlWords<'_> {
    ghost output = { λ w. Some (spec.control_words w.spelling (header_of w.view.now)) };

    #[tactic(auto, unfolding(crate::specs::Text::control_words, crate::specs::Text::words_of))]
    fn fmt<W: fmt::Write>(&self, f: &mut fmt::Formatter<W>) -> fmt::Result {
        match self.spelling {
            Spelling::Numbers => Ok(()),
            Spelling::Names => {
                let view = self.view;
                fmt_if(view.message.is_some(), "network-layer-message", f)?;
                fmt_if(view.destination.is_some(), "destination", f)?;
                fmt_if(view.source.is_some(), "source", f)?;
                fmt_if(view.expects_reply, "expecting-reply", f)?;
                fmt_name(network_priorities(), u32::from(u8::from(view.priority)), f)
            }
        }
    }
}

/// Whom a message is for that is for more than one station (6.2.2), where names are asked for.
#[derive(Clone, Copy)]
pub struct ReachWords<'a> {
    pub spelling: Spelling,
    pub destination: Destination<'a>,
}

impl fmt::Display for ReachWords<'_> {
    ghost output = { λ w. Some (spec.reach_words w.spelling (destination_of w.destination)) };

    #[tactic(auto, unfolding(crate::specs::Text::reach_words, crate::specs::Text::words_of))]
    fn fmt<W: fmt::Write>(&self, f: &mut fmt::Formatter<W>) -> fmt::Result {
        match self.spelling {
            Spelling::Numbers => Ok(()),
            Spelling::Names => fmt_reach(u16::from(self.destination.net), self.destination.mac, f),
        }
    }
}

/// Prints whom a message to a network and an address is for, where that is more than one station.
fn fmt_reach<W: fmt::Write>(net: u16, mac: &[u8], f: &mut fmt::Formatter<W>) -> fmt::Result
    ensures { WritesOnOk W.write_str_gives f.old result (spec.reach net mac.now) f.new }
{
    if net == 65535 {
        f.write_str(" global-broadcast")
    } else if mac.is_empty() {
        f.write_str(" remote-broadcast")
    } else {
        Ok(())
    }
}

/// The flags that an APDU sets (20.1), where names are asked for.
#[derive(Clone, Copy)]
pub struct FlagWords<'a> {
    pub spelling: Spelling,
    pub apdu: &'a Apdu<'a>,
}

impl fmt::Display for FlagWords<'_> {
    ghost output = { λ w. Some (spec.flag_words w.spelling (apdu_of w.apdu.now)) };

    #[tactic(auto, unfolding(crate::specs::Text::flag_words, crate::specs::Text::words_of))]
    fn fmt<W: fmt::Write>(&self, f: &mut fmt::Formatter<W>) -> fmt::Result {
        match self.spelling {
            Spelling::Numbers => Ok(()),
            Spelling::Names => fmt_flags(self.apdu, f),
        }
    }
}

/// Prints the flags that an APDU sets.
fn fmt_flags<W: fmt::Write>(apdu: &Apdu<'_>, f: &mut fmt::Formatter<W>) -> fmt::Result
    ensures { WritesOnOk W.write_str_gives f.old result (spec.flags (apdu_of apdu.now)) f.new }
{
    match apdu {
        Apdu::ConfirmedRequest {
            segment,
            segmented_response_accepted,
            ..
        } => {
            fmt_segment_flags(*segment, f)?;
            fmt_if(
                *segmented_response_accepted,
                "segmented-response-accepted",
                f,
            )
        }
        Apdu::ComplexAck { segment, .. } => fmt_segment_flags(*segment, f),
        Apdu::SegmentAck {
            negative,
            server,
            ..
        } => {
            fmt_if(*negative, "negative-ack", f)?;
            fmt_if(*server, "server", f)
        }
        Apdu::Abort { server, .. } => fmt_if(*server, "server", f),
        Apdu::UnconfirmedRequest { .. }
        | Apdu::SimpleAck { .. }
        | Apdu::Error { .. }
        | Apdu::Reject { .. } => Ok(()),
    }
}

/// Prints the flags that a segment sets.
fn fmt_segment_flags<W: fmt::Write>(
    segment: Option<Segment>,
    f: &mut fmt::Formatter<W>,
) -> fmt::Result
    ensures { WritesOnOk W.write_str_gives f.old result (spec.segment_flags segment) f.new }
{
    match segment {
        Some(segment) => {
            f.write_str(" segmented-message")?;
            fmt_if(segment.more_follows, "more-follows", f)
        }
        None => Ok(()),
    }
}

/// What a requester can take (20.1.2.4, 20.1.2.5), where names are asked for.
#[derive(Clone, Copy)]
pub struct SizeWords<'a> {
    pub spelling: Spelling,
    pub apdu: &'a Apdu<'a>,
}

impl fmt::Display for SizeWords<'_> {
    ghost output = { λ w. Some (spec.size_words w.spelling (apdu_of w.apdu.now)) };

    #[tactic(auto, unfolding(crate::specs::Text::size_words, crate::specs::Text::words_of))]
    fn fmt<W: fmt::Write>(&self, f: &mut fmt::Formatter<W>) -> fmt::Result {
        match (self.spelling, self.apdu) {
            (
                Spelling::Names,
                Apdu::ConfirmedRequest {
                    max_segments,
                    max_apdu,
                    ..
                },
            ) => fmt_sizes(*max_segments, *max_apdu, f),
            (Spelling::Numbers | Spelling::Names, _) => Ok(()),
        }
    }
}

/// Prints how many segments a requester takes, and of how many octets its APDUs are at most.
fn fmt_sizes<W: fmt::Write>(
    segments: MaxSegments,
    apdu: MaxApdu,
    f: &mut fmt::Formatter<W>,
) -> fmt::Result
    ensures { WritesOnOk W.write_str_gives f.old result (spec.taken_text segments (apdu_code apdu)) f.new }
{
    let spelling = Spelling::Names;
    let segments = Named {
        spelling,
        table: max_segments(),
        number: u32::from(u8::from(segments)),
    };
    let octets = Named {
        spelling,
        table: max_apdus(),
        number: u32::from(u8::from(apdu)),
    };
    write!(f, " segments {segments} max-apdu {octets}")
}

/// The words of a tag (20.2), where names are asked for.
#[derive(Clone, Copy)]
pub struct TagWords<'a> {
    pub spelling: Spelling,
    pub note: Note<'a>,
}

impl fmt::Display for TagWords<'_> {
    ghost output = { λ w. Some (spec.words_of w.spelling
        (note w.note.parameter w.note.position (plain_tag w.note.tag))) };

    #[tactic(auto, unfolding(crate::specs::Text::words_of))]
    fn fmt<W: fmt::Write>(&self, f: &mut fmt::Formatter<W>) -> fmt::Result {
        match self.spelling {
            Spelling::Numbers => Ok(()),
            Spelling::Names => write!(f, "{}", self.note),
        }
    }
}
