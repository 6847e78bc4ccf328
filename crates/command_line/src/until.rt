//! Which words of `--until` a line may begin with, behind its moment.

ghost use Rattle.std.specs.Prelude.{◌≡◌, true};
ghost use Rattle.command_line.specs.Searching.{IsKind};

use command_files::beginning;
use std::io::Write;
use words::parse_u64;

/// What a line may be, behind its moment.
const LINES: [&str; 5] = [
    "issue NUMBER CLIENT INSTANCE REQUEST",
    "executed NUMBER REPLY",
    "answered NUMBER REPLY",
    "ended NUMBER timedout, ended NUMBER rejected REASON, ended NUMBER aborted REASON",
    "restarted DEVICE",
];

/// Whether a line may begin with these words, behind its moment. What stands in a request or behind the kind of a reply
/// isn't judged, and what exists at a site isn't either.
pub(crate) fn may_begin_line(words: &str) -> bool
    ensures { IsKind words.now → result ≡ true }
{
    is_kind(words) || may_begin_entry(words)
}

/// Whether this word names a kind of entry.
fn is_kind(word: &str) -> bool
    ensures { IsKind word.now → result ≡ true }
{
    matches!(
        word,
        "issue" | "executed" | "answered" | "ended" | "restarted"
    )
}

/// Whether a line may begin with a kind of entry and these words behind it.
fn may_begin_entry(words: &str) -> bool {
    match words.split_once(' ') {
        Some(("issue", rest)) => may_follow_issue(rest),
        Some(("executed" | "answered", rest)) => may_follow_outcome(rest),
        Some(("ended", rest)) => may_follow_ended(rest),
        Some(("restarted", rest)) => is_name(rest),
        Some((_, _)) | None => false,
    }
}

/// The first word, and what stands behind its blank, if there is one.
fn first_word<'w>(words: &'w str) -> (&'w str, Option<&'w str>) {
    match words.split_once(' ') {
        Some((first, rest)) => (first, Some(rest)),
        None => (words, None),
    }
}

/// Whether this is one word, as the name of a station.
fn is_name(word: &str) -> bool {
    !word.is_empty() && !word.contains(' ')
}

/// Whether this is a number as it is printed.
fn is_number(word: &str) -> bool {
    let is_printed = word == "0" || !word.starts_with('0');
    is_printed && parse_u64(word).is_ok()
}

/// `0 panel 10 read 45:1 85`, or its beginning.
fn may_follow_issue(words: &str) -> bool {
    let (number, rest) = first_word(words);
    is_number(number) && rest.is_none_or(may_follow_number)
}

/// `panel 10 read 45:1 85`, or its beginning.
fn may_follow_number(words: &str) -> bool {
    let (client, rest) = first_word(words);
    !client.is_empty() && rest.is_none_or(may_follow_client)
}

/// `10 read 45:1 85`, or its beginning.
fn may_follow_client(words: &str) -> bool {
    let (instance, rest) = first_word(words);
    is_number(instance) && rest.is_none_or(may_be_request)
}

/// `read 45:1 85`, or its beginning.
fn may_be_request(words: &str) -> bool {
    let (kind, _) = first_word(words);
    matches!(kind, "read" | "many" | "write" | "batch")
}

/// `0 done`, or its beginning.
fn may_follow_outcome(words: &str) -> bool {
    let (number, rest) = first_word(words);
    is_number(number) && rest.is_none_or(may_be_reply)
}

/// `values signed 21`, or its beginning.
fn may_be_reply(words: &str) -> bool {
    match first_word(words) {
        ("done", rest) => rest.is_none(),
        ("values" | "many" | "error", _) => true,
        (_, _) => false,
    }
}

/// `0 aborted 4`, or its beginning.
fn may_follow_ended(words: &str) -> bool {
    let (number, rest) = first_word(words);
    is_number(number) && rest.is_none_or(may_be_why)
}

/// `aborted 4`, or its beginning.
fn may_be_why(words: &str) -> bool {
    match first_word(words) {
        ("timedout", rest) => rest.is_none(),
        ("rejected" | "aborted", rest) => rest.is_none_or(is_name),
        (_, _) => false,
    }
}

/// Tells that no line begins with these words, and what a line may be.
pub(crate) fn say_no_line<E: Write>(words: &str, in_colour: bool, err: &mut E) {
    let beginning = beginning(in_colour);
    let _ = writeln!(
        err,
        "{beginning} --until: no line begins with \"{words}\"; after its time a line is one of:"
    );
    for line in LINES {
        let _ = writeln!(err, "  {line}");
    }
}
