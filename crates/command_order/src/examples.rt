//! The examples at the end of each command's help.

/// The examples of the program and of each command, by its name: a title, and lines with two spaces before each.
pub static EXAMPLES: [(&str, &str); 14] = [
    ("bacsite", PROGRAM),
    ("answer", ANSWER),
    ("explain", EXPLAIN),
    ("diagnose", DIAGNOSE),
    ("sim", SIM),
    ("storm", STORM),
    ("search", SEARCH),
    ("run", RUN),
    ("check", CHECK),
    ("fmt", FMT),
    ("pics", PICS),
    ("init", INIT),
    ("completions", COMPLETIONS),
    ("man", MAN),
];

pub(crate) const PROGRAM: &str = "Examples:
  bacsite init
  bacsite sim site.toml first.script
  bacsite sim --help";

pub(crate) const ANSWER: &str = "Examples:
  bacsite answer 81 0A 00 11 01 04 02 65 01 0C 0C 01 40 00 01 19 55
  bacsite answer 810A001101040265010C0C014000011955";

pub(crate) const EXPLAIN: &str = "Examples:
  bacsite explain 81 0A 00 11 01 04 02 65 01 0C 0C 01 40 00 01 19 55
  bacsite explain 81:0a:00:11:01:04:02:65:01:0c:0c:01:40:00:01:19:55
  bacsite explain --names 81 0A 00 11 01 04 02 65 01 0C 0C 01 40 00 01 19 55
  bacsite explain --pcap plant.pcapng --names
  bacsite explain --pcap plant.pcapng --json";

pub(crate) const DIAGNOSE: &str = "Examples:
  bacsite diagnose plant.pcapng
  bacsite diagnose plant.pcapng --transactions --timeout 10000
  bacsite diagnose plant.pcapng --stations
  bacsite diagnose plant.pcapng --between 10.0.0.5 10.0.0.9 --json
  bacsite diagnose plant.pcapng --site plant.toml --report plant.html";

pub(crate) const SIM: &str = "Examples:
  bacsite sim plant.toml plant.script --names
  bacsite sim plant.toml plant.script --trace --json
  bacsite sim plant.toml plant.script --report plant.html --from 1000 --to 5000";

pub(crate) const STORM: &str = "Examples:
  bacsite storm plant.toml plant.script --seed 1 --steps 2000
  bacsite storm plant.toml plant.script --seed 1 --steps 2000 --lose 10 --count
  bacsite storm plant.toml plant.script --seed 1 --steps 2000 --script storm.script";

pub(crate) const SEARCH: &str = "Examples:
  bacsite search plant.toml plant.script --until 'answered 0'
  bacsite search plant.toml plant.script --until 'ended 0 timedout' --depth 4";

pub(crate) const RUN: &str = "Examples:
  bacsite run plant.toml plant.script --names
  bacsite run plant.toml plant.script --open --for 60
  bacsite run plant.toml plant.script --open --for 0 --pcap plant.pcapng";

pub(crate) const CHECK: &str = "Examples:
  bacsite check plant.toml
  bacsite check plant.toml plant.script --strict
  bacsite check plant.toml plant.script --live --json";

pub(crate) const FMT: &str = "Examples:
  bacsite fmt plant.script
  bacsite fmt plant.script > formatted.script";

pub(crate) const PICS: &str = "Examples:
  bacsite pics
  bacsite pics --markdown > pics.md";

pub(crate) const INIT: &str = "Examples:
  bacsite init
  bacsite init plant --devices 20";

pub(crate) const COMPLETIONS: &str = "Examples:
  source <(bacsite completions bash)
  bacsite completions zsh > ~/.zsh/completions/_bacsite
  bacsite completions fish > ~/.config/fish/completions/bacsite.fish";

pub(crate) const MAN: &str = "Examples:
  bacsite man | man -l -
  bacsite man > ~/.local/share/man/man1/bacsite.1";
