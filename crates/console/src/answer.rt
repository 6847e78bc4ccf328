//! `bacsite answer`: what the built-in device says to one datagram.

ghost use Rattle.std.specs.Prelude.{◌≡◌, ◌≤◌, IfOk, IfErr, OnOk, map, string_bytes};
ghost use Rattle.console.specs.Answer.{printed, sender, text_of, PrintsAnswer, SomeResponse};
ghost use Rattle.std.specs.Io.KnownBytes.{Appends};
ghost use Rattle.console.specs.Builtin.{builtin_device};

use crate::builtin::{Builtin, respond};
use crate::refusal::say_failed;
use npdu::Mac;
use octet_texts::{push_pairs, read_hex};
use std::alloc::{AllocError, Allocator};
use std::io;
use std::io::Write;
use tags::{Fault, Items, Octets};

/// Where the datagram comes from: 127.0.0.1:47809.
const FROM: Mac = Mac::Six([127, 0, 0, 1, 0xBA, 0xC1]);

/// Prints each datagram that the built-in device says to the one that the words spell as
/// hexadecimal digits, on a line of its own, or `none`. Answers the exit status: 1 for faulty
/// digits, a failed write or want of memory, and else 0.
pub fn answer_line<A: Allocator + Copy, W: Write, E: Write>(
    alloc: A,
    words: &[String],
    out: &mut W,
    err: &mut E,
) -> u8
    ensures status { result ≤ 1 }
    ensures answered { result ≡ 0
        → PrintsAnswer (builtin_device {A = A}) (text_of (map string_bytes words.now))
        (W.contents out.old) (W.contents out.new) }
{
    match answer(alloc, words, out, err) {
        Ok(status) => status,
        Err(error) => say_failed(&error, err),
    }
}

fn answer<A: Allocator + Copy, W: Write, E: Write>(
    alloc: A,
    words: &[String],
    out: &mut W,
    err: &mut E,
) -> io::Result<u8>
    ensures status { IfOk result (λ status. status ≤ 1) }
    ensures answered { IfOk result (λ status. status ≡ 0
        → PrintsAnswer (builtin_device {A = A}) (text_of (map string_bytes words.now))
        (W.contents out.old) (W.contents out.new)) }
{
    let Some(datagram) = read_hex(alloc, words)? else {
        writeln!(err, "bacsite: hex")?;
        return Ok(1);
    };
    let Ok(said) = said_to(alloc, datagram.as_slice()) else {
        return Err(io::ErrorKind::OutOfMemory.into());
    };
    print(alloc, said.as_slice(), out)?;
    Ok(0)
}

/// What the built-in device says to a datagram, as it opens.
fn said_to<A: Allocator + Copy>(alloc: A, datagram: &[u8]) -> Result<Items<Octets<A>, A>, Fault>
    ensures responds { IfOk result (λ said. SomeResponse datagram.now (builtin_device {A = A}) said) }
    ensures memory { IfErr result (λ fault. fault ≡ Fault.Memory) }
{
    let mut device = Builtin::new(alloc)?;
    let said = respond(&mut device, FROM, datagram)?;
    Ok(said)
}

/// Prints the datagrams that are said.
fn print<A: Allocator + Copy, W: Write>(alloc: A, said: &[Octets<A>], out: &mut W) -> io::Result<()>
    ensures { OnOk result (Appends (W.contents out.old) (W.contents out.new) (printed said.now)) }
{
    let text = printed(alloc, said)?;
    out.write_all(text.as_slice())
}

/// What is printed of the datagrams that are said.
fn printed<A: Allocator + Copy>(alloc: A, said: &[Octets<A>]) -> Result<Vec<u8, A>, AllocError>
    ensures { IfOk result (λ text. text.items ≡ printed said.now) }
{
    if said.is_empty() {
        return Vec::from_slice(alloc, b"none\n");
    }
    let mut text = Vec::new(alloc);
    for octets in said {
        push_pairs(octets.as_slice(), &mut text)?;
        text.push(b'\n')?;
    }
    Ok(text)
}
