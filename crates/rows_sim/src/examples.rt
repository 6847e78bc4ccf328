//! Examples: `NAME.toml` is a site, `NAME.script` a script, and `NAME.out` what is printed of it.

use refusing::Refusing;
use site_run::simulate;
use std::alloc::Global;
use std::{fs, io};

/// How the name of a site's file ends.
const SITE: &str = ".toml";

/// Runs each example where the program runs, and prints a line for each.
///
/// # Errors
/// Those of reading and of printing, and want of memory.
pub(crate) fn run_examples(rt: &HostRuntime) -> io::Result<()> {
    for name in sites(rt)?.as_slice() {
        let said = run_example(rt, name.as_str())?;
        rt.print(said.as_str())?;
    }
    Ok(())
}

/// The names of examples, in order.
pub(crate) fn sites(rt: &HostRuntime) -> io::Result<Vec<String>> {
    let mut names = Vec::new(rt.alloc());
    for entry in fs::read_dir(rt, ".")? {
        let entry = entry?;
        if let Some(name) = entry.file_name().strip_suffix(SITE) {
            names.push(String::from_str(rt.alloc(), name)?)?;
        }
    }
    names.sort()?;
    Ok(names)
}

/// Runs an example, and answers what is printed of that.
fn run_example(rt: &HostRuntime, name: &str) -> io::Result<String> {
    let alloc = rt.alloc();
    let site = read(rt, name, "toml")?;
    let script = read(rt, name, "script")?;
    let wanted = read(rt, name, "out")?;
    let said = said_of(
        alloc,
        name,
        site.as_slice(),
        script.as_slice(),
        wanted.as_slice(),
    )?;
    Ok(said)
}

/// The octets of a file of an example.
pub(crate) fn read(rt: &HostRuntime, name: &str, kind: &str) -> io::Result<Vec<u8>> {
    let file = format!(in rt.alloc(); "{name}.{kind}")?;
    fs::read(rt, file.as_str())
}

/// Whether an example prints what is wanted.
fn said_of(
    alloc: Global,
    name: &str,
    site: &[u8],
    script: &[u8],
    wanted: &[u8],
) -> io::Result<String> {
    let memory = Refusing::new(alloc);
    let mut out = Vec::new(alloc);
    let mut err = Vec::new(alloc);
    let status = simulate(alloc, &memory, site, script, &mut out, &mut err);
    let holds = status == 0 && err.is_empty() && out.as_slice() == wanted;
    let word = if holds {
        "prints what it says"
    } else {
        "prints something else"
    };
    let said = format!(in alloc; "example {name}: {word}\n")?;
    Ok(said)
}
