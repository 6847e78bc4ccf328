//! Which files a command may write: each output is neither an input nor another output.

ghost use Rattle.std.specs.Prelude.{◌≡◌, ◌≢◌, true, false, IsNone, IsSome, Some, map, option_map, string_bytes};
ghost use Rattle.command_files.specs.Outputs as spec;

use crate::files::Files;
use crate::telling::beginning;
use std::io::Write;

/// The name of standard input where a file is read, and of standard output where one is written.
pub const STANDARD: &str = "-";

/// The file from which standard input comes.
const STANDARD_INPUT: &str = "/dev/stdin";

/// Whether this is the name of standard output.
pub fn is_standard(name: Option<&str>) -> bool
    ensures standard { result ≡ true → option_map (λ n. n.now) name.entry ≡ Some spec.standard }
    ensures other { result ≡ false → option_map (λ n. n.now) name.entry ≢ Some spec.standard }
{
    match name {
        Some(name) => name == STANDARD,
        None => false,
    }
}

/// Whether one of these is the name of standard output.
pub fn is_any_standard(names: &[Option<&str>]) -> bool
    ensures any { result ≡ true → spec.AreNotStandard (map (λ o. option_map (λ n. n.now) o) names.now) → ⊥ }
    ensures none { result ≡ false → spec.AreNotStandard (map (λ o. option_map (λ n. n.now) o) names.now) }
{
    let mut left = names;
    while let [first, rest @ ..] = left {
        if is_standard(*first) {
            return true;
        }
        left = rest;
    }
    false
}

/// The file that is read under this name.
pub fn source_of<'n>(name: &'n str) -> &'n str
    ensures { result.now ≡ spec.source_of name.entry.now }
{
    if name == STANDARD {
        STANDARD_INPUT
    } else {
        name
    }
}

/// The first of these names, where they are any, that is of the same file as an output.
fn met<'n, F: Files>(files: &F, output: Option<&str>, others: &[Option<&'n str>]) -> Option<&'n str>
    ensures met { IsSome result → spec.MeetsOne (F.same files.now) (option_map (λ n. n.now) output.entry)
        (map (λ o. option_map (λ n. n.now) o) others.now) }
    ensures none { IsNone result → spec.MeetsNone (F.apart files.now) (option_map (λ n. n.now) output.entry)
        (map (λ o. option_map (λ n. n.now) o) others.now) }
{
    let mut left = others;
    while let [first, rest @ ..] = left {
        if may_meet(files, output, *first) {
            return *first;
        }
        left = rest;
    }
    None
}

/// Whether two names, where there are two, are of one file.
fn may_meet<F: Files>(files: &F, output: Option<&str>, other: Option<&str>) -> bool
    ensures meets { result ≡ true → spec.MayMeet (F.same files.now) (option_map (λ n. n.now) output.entry)
        (option_map (λ n. n.now) other.entry) }
    ensures named { result ≡ true → IsSome other.entry }
    ensures differs { result ≡ false → spec.MayDiffer (F.apart files.now) (option_map (λ n. n.now) output.entry)
        (option_map (λ n. n.now) other.entry) }
{
    match (output, other) {
        (Some(output), Some(other)) => files.is_same(output, other),
        (None, _) | (_, None) => false,
    }
}

/// Tells of the first output that is the same file as an input or another output, if there is one. Each name may be
/// absent.
pub fn are_apart<F: Files, E: Write>(
    files: &F,
    inputs: &[Option<&str>],
    outputs: &[Option<&str>],
    in_colour: bool,
    err: &mut E,
) -> bool
    ensures clash { result ≡ false → spec.Clash (F.same files.now) (map (λ o. option_map (λ n. n.now) o) inputs.now)
        (map (λ o. option_map (λ n. n.now) o) outputs.now) }
    ensures apart { result ≡ true → spec.AreApart (F.apart files.now)
        (map (λ o. option_map (λ n. n.now) o) inputs.now) (map (λ o. option_map (λ n. n.now) o) outputs.now) }
{
    let mut left = outputs;
    while let [output, rest @ ..] = left {
        if let Some(input) = met(files, *output, inputs) {
            say_clash(*output, "input", input, in_colour, err);
            return false;
        }
        if let Some(other) = met(files, *output, rest) {
            say_clash(*output, "output", other, in_colour, err);
            return false;
        }
        left = rest;
    }
    true
}

/// Tells that an output is the file of another name.
fn say_clash<E: Write>(
    output: Option<&str>,
    kind: &str,
    other: &str,
    in_colour: bool,
    err: &mut E,
) {
    let beginning = beginning(in_colour);
    let output = output.unwrap_or(other);
    let other = if other == STANDARD_INPUT {
        STANDARD
    } else {
        other
    };
    let _ = writeln!(
        err,
        "{beginning} output {output} is the same file as {kind} {other}"
    );
}

/// Whether two files that are read are both standard input, which is told then: it is read once.
pub fn is_read_twice<E: Write>(site: &str, script: &str, in_colour: bool, err: &mut E) -> bool
    ensures { result ≡ true → spec.AreBothStandard site.now script.now }
{
    if site != STANDARD || script != STANDARD {
        return false;
    }
    let beginning = beginning(in_colour);
    let _ = writeln!(
        err,
        "{beginning} standard input is read once, and - stands for two files"
    );
    true
}

/// Whether a command may read and write these files, which are told of where it may not: standard input is read once,
/// and each output is neither an input nor another output.
pub fn are_safe<F: Files, E: Write>(
    files: &F,
    site: &String,
    script: &String,
    outputs: &[Option<&str>],
    in_colour: bool,
    err: &mut E,
) -> bool
    ensures refused { result ≡ false
        → spec.AreUnsafe (F.same files.now) (string_bytes site.now) (string_bytes script.now)
        (map (λ o. option_map (λ n. n.now) o) outputs.now) }
    ensures safe { result ≡ true → spec.AreSafe (F.apart files.now) (string_bytes site.now) (string_bytes script.now)
        (map (λ o. option_map (λ n. n.now) o) outputs.now) }
{
    if is_read_twice(site.as_str(), script.as_str(), in_colour, err) {
        return false;
    }
    let inputs = [
        Some(source_of(site.as_str())),
        Some(source_of(script.as_str())),
    ];
    are_apart(files, &inputs, outputs, in_colour, err)
}
