//! What a restart leaves of a server (5.4.1, 5.4.5).

ghost use Rattle.std.specs.Prelude.{◌≡◌, ◌≤◌};
ghost use Rattle.profile.specs.Ages as age;
ghost use Rattle.profile.specs.Times.{MAX_MOMENT_MS};

use profile::end_of_quiet;

/// Restarts at the moment `now`, in milliseconds: what executes requests has its opening objects, and the quiet time
/// ends 13000 later. It takes no memory.
pub fn restart<E: Drop>(executor: &mut E, quiet_until: &mut u64, opening: E, now: u64)
    requires { now ≤ MAX_MOMENT_MS }
    ensures objects { executor.new ≡ opening }
    ensures quiet { quiet_until.new ≡ age.end_of_quiet now }
{
    *executor = opening;
    *quiet_until = end_of_quiet(now);
}
