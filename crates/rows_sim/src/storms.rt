//! Storms behind the scripts of the examples: what is printed of a storm is what is printed of the script that it puts
//! down. A storm that is counted, in a world that forgets, puts down the same script, and its counts are those of a
//! world that keeps all behind that. Where an allocation is refused it says so.

use crate::examples::{read, sites};
use refusing::Refusing;
use site_run::simulate;
use site_storm::{
    Chances, CountLine, Opened, Spelling, Telling, Weather, counts_of, open, storm, storm_counted,
    take_steps,
};
use std::alloc::{Allocator, Global};
use std::io;

/// The seeds at each example.
const SEEDS: [u64; 5] = [1, 2, 3, 4, 5];

/// How many events a storm has, one in which what can no longer matter is forgotten again and again, and one in which
/// each allocation is refused in turn.
const STEPS: u64 = 300;

const MANY_STEPS: u64 = 3000;

const FEW_STEPS: u64 = 40;

/// How many allocations of a storm are refused at most.
const MANY: u64 = 100_000;

/// What is told where memory is refused outside of an event, and in one, behind its moment.
const ENDS: &[u8] = b"bacsite: refused 1 Memory\n";

const NO_MEMORY: &str = " refused 1 Memory\n";

/// What came of a storm.
#[derive(Drop)]
struct Came {
    status: u8,
    lines: Vec<u8>,
    out: Vec<u8>,
    err: Vec<u8>,
}

/// The storm of a seed.
fn weather(seed: u64, steps: u64) -> Weather {
    Weather {
        seed,
        steps,
        chances: Chances::USUAL,
    }
}

/// Lets storms happen behind the script of each example, and prints a line for each example.
///
/// # Errors
/// Those of reading and of printing, and want of memory.
pub(crate) fn run_storms(rt: &HostRuntime) -> io::Result<()> {
    for name in sites(rt)?.as_slice() {
        let said = storms_at(rt, name.as_str())?;
        rt.print(said.as_str())?;
    }
    Ok(())
}

/// Lets storms happen at an example, and answers what is printed of that.
fn storms_at(rt: &HostRuntime, name: &str) -> io::Result<String> {
    let alloc = rt.alloc();
    let site = read(rt, name, "toml")?;
    let script = read(rt, name, "script")?;
    let mut alike = 0u64;
    for seed in SEEDS {
        if is_alike(
            alloc,
            site.as_slice(),
            script.as_slice(),
            weather(seed, STEPS),
        )? {
            alike = alike.saturating_add(1);
        }
    }
    let weather = weather(1, MANY_STEPS);
    let long = if is_alike(alloc, site.as_slice(), script.as_slice(), weather)? {
        "a long one too"
    } else {
        "a long one doesn't"
    };
    let refused = refused_in(alloc, site.as_slice())?;
    let told = if are_told_where_counted(alloc, site.as_slice())? {
        "each is told"
    } else {
        "not each is told"
    };
    let said = format!(in alloc;
        "storms {name}: {alike} print what their scripts print, {long}; {refused} refused allocations; {told} where it \
        is counted\n"
    )?;
    Ok(said)
}

/// What comes of a storm in this memory.
fn came_of<A: Allocator + Copy>(
    alloc: Global,
    memory: A,
    site: &[u8],
    script: &[u8],
    weather: Weather,
) -> io::Result<Came> {
    let mut lines = Vec::from_slice(alloc, script)?;
    let mut out = Vec::new(alloc);
    let mut err = Vec::new(alloc);
    let status = storm(
        alloc,
        memory,
        site,
        script,
        weather,
        Spelling::Numbers,
        &mut lines,
        &mut out,
        &mut err,
    );
    Ok(Came {
        status,
        lines,
        out,
        err,
    })
}

/// Whether a storm prints what the script prints that it puts down, and the same is counted.
fn is_alike(alloc: Global, site: &[u8], script: &[u8], weather: Weather) -> io::Result<bool> {
    let memory = Refusing::new(alloc);
    let came = came_of(alloc, &memory, site, script, weather)?;
    let mut out = Vec::new(alloc);
    let mut err = Vec::new(alloc);
    let status = simulate(
        alloc,
        &memory,
        site,
        came.lines.as_slice(),
        &mut out,
        &mut err,
    );
    let counted = is_counted(alloc, site, script, weather, &came)?;
    Ok(
        came.status == 0
            && status == 0
            && came.err.is_empty()
            && err.is_empty()
            && out.as_slice() == came.out.as_slice()
            && counted,
    )
}

/// What comes of a storm in this memory, of which the counts alone are printed.
fn counted_of<A: Allocator + Copy>(
    alloc: Global,
    memory: A,
    site: &[u8],
    script: &[u8],
    weather: Weather,
) -> io::Result<Came> {
    let mut lines = Vec::from_slice(alloc, script)?;
    let mut out = Vec::new(alloc);
    let mut err = Vec::new(alloc);
    let status = storm_counted(
        alloc, memory, site, script, weather, &mut lines, &mut out, &mut err,
    );
    Ok(Came {
        status,
        lines,
        out,
        err,
    })
}

/// The line of what there was of all behind the steps of a script, in a world that keeps all; none where they are no
/// site and no script.
fn counts_behind<A: Allocator + Copy>(
    alloc: Global,
    memory: A,
    site: &[u8],
    script: &[u8],
) -> io::Result<Option<String>> {
    let Ok(opened) = open(alloc, memory, site, script) else {
        return Ok(None);
    };
    let Opened {
        world,
        steps,
        lines,
    } = opened;
    let mut world = world;
    let mut out = Vec::new(alloc);
    let telling = Telling::entries(Spelling::Numbers);
    let taken = take_steps(&mut world, steps, lines, telling, &mut out);
    let counts = counts_of(memory, &world);
    world.close();
    taken?;
    let line = format!(in alloc; "{}\n", CountLine(counts?))?;
    Ok(Some(line))
}

/// Whether the counts of a storm are those of a world that keeps all behind the script that it puts down, and of the
/// last line that is printed of it, and it puts down the same lines.
fn is_counted(
    alloc: Global,
    site: &[u8],
    script: &[u8],
    weather: Weather,
    came: &Came,
) -> io::Result<bool> {
    let memory = Refusing::new(alloc);
    let Came {
        status,
        lines,
        out,
        err,
    } = counted_of(alloc, &memory, site, script, weather)?;
    let whole = counts_behind(alloc, &memory, site, lines.as_slice())?;
    let counted = std::str::from_utf8(out.as_slice()).unwrap_or("");
    let is_whole = match &whole {
        Some(line) => line.as_str() == counted,
        None => false,
    };
    let printed = std::str::from_utf8(came.out.as_slice()).unwrap_or("");
    let last = printed
        .trim_end()
        .rsplit_once('\n')
        .map_or(printed, |x| x.1);
    Ok(
        status == 0
            && err.is_empty()
            && is_whole
            && lines.as_slice() == came.lines.as_slice()
            && number_behind(counted, "issues ") == number_behind(last, "issued ")
            && number_behind(counted, "answered ") == number_behind(last, "answered ")
            && number_behind(counted, "executed ") == number_behind(last, "executed ")
            && number_behind(counted, " ms ") == number_behind(last, "end "),
    )
}

/// The word that stands behind another in a line.
fn number_behind<'a>(line: &'a str, word: &str) -> Option<&'a str> {
    let (_, behind) = line.split_once(word)?;
    match behind.split_once(' ') {
        Some((number, _)) => Some(number),
        None => Some(behind.trim_end()),
    }
}

/// Refuses each allocation of a short storm without a script in turn, and answers how many were refused; 0 where one
/// wasn't told.
fn refused_in(alloc: Global, site: &[u8]) -> io::Result<u64> {
    let weather = weather(1, FEW_STEPS);
    let ample = Refusing::new(alloc);
    let plain = came_of(alloc, &ample, site, &[], weather)?;
    for n in 1..MANY {
        let memory = Refusing::new(alloc);
        memory.refuse_only(n);
        let came = came_of(alloc, &memory, site, &[], weather)?;
        if memory.is_waiting() {
            let is_plain = came.status == 0 && came.out.as_slice() == plain.out.as_slice();
            return Ok(if is_plain { n - 1 } else { 0 });
        }
        if !is_told(&came) {
            return Ok(0);
        }
    }
    Ok(0)
}

/// Refuses each allocation of the same storm in turn where it is counted, and answers whether each is told.
fn are_told_where_counted(alloc: Global, site: &[u8]) -> io::Result<bool> {
    let weather = weather(1, FEW_STEPS);
    let ample = Refusing::new(alloc);
    let plain = counted_of(alloc, &ample, site, &[], weather)?;
    for n in 1..MANY {
        let memory = Refusing::new(alloc);
        memory.refuse_only(n);
        let came = counted_of(alloc, &memory, site, &[], weather)?;
        if memory.is_waiting() {
            return Ok(n > 1 && came.status == 0 && came.out.as_slice() == plain.out.as_slice());
        }
        if !is_told_or_counted(&came) {
            return Ok(false);
        }
    }
    Ok(false)
}

/// Whether a storm of which the counts are printed was refused memory outside of an event and says so, or in one, which
/// is refused then, and is counted to its end.
fn is_told_or_counted(came: &Came) -> bool {
    if came.status == 1 {
        return came.err.as_slice() == ENDS;
    }
    came.status == 0 && came.err.is_empty() && !came.out.is_empty()
}

/// Whether a storm that was refused memory says so.
fn is_told(came: &Came) -> bool {
    if came.status == 1 {
        return came.err.as_slice() == ENDS;
    }
    let out = std::str::from_utf8(came.out.as_slice()).unwrap_or("");
    came.status == 0 && out.contains(NO_MEMORY)
}
