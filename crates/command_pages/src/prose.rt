//! What the man page says that clap does not know.

pub(crate) const DESCRIPTION: &str = "\
.B bacsite
is a BACnet control internetwork (ANSI/ASHRAE 135): devices, clients, routers and broadcast managers on BACnet/IP and
MS/TP, as a site file describes them.
It runs a whole site from a script, at random or live over UDP, finds the events that lead to a given result, and
decodes datagrams and captures.
.PP
Each answer that a client gets is the reply of the device that it named to that very request, executed exactly once,
whatever is lost, repeated or late: that is proved.
";

pub(crate) const EXIT_STATUS: &str = "\
.TP
.B 0
Success.
.TP
.B 1
A file can't be read or written; a site file or a script has a fault; a capture or a datagram can't be read;
.B search
found nothing;
.B check
found a fault, or with
.B \\-\\-strict
a note; or memory ran out.
.TP
.B 2
There is a mistake on the command line.
";

pub(crate) const FILES: &str = "\
.TP
.I site.toml
A site: its networks, and the stations on each, with their addresses and objects.
.TP
.I first.script
A script: on each line what happens next, such as a request of a client, a datagram that is lost, or time that passes.
.TP
.I \\-
Instead of a name: standard input for a file that is read, standard output for one that is written.
";

pub(crate) const ENVIRONMENT: &str = "\
.TP
.B NO_COLOR
If it is set, messages have no colour.
";
