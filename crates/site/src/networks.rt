//! How many networks there are, and their numbers.

ghost use Rattle.std.specs.Prelude.{◌↔◌, IsTrue};
ghost use Rattle.std.specs.List.{AllByRecursion};
ghost use Rattle.site.specs.Networks.{AreFewNetworks, IsNetwork};

use profile::MAX_NETWORKS;
use site_parts::Network;

/// Whether there is a network, and there are at most 250.
pub fn are_few_networks(networks: &[Network]) -> bool
    ensures { IsTrue result ↔ AreFewNetworks networks.now }
{
    0 < networks.len() && networks.len() <= MAX_NETWORKS
}

/// Whether each network's number is 1 to 65534 (6.2.2).
pub fn have_numbers(networks: &[Network]) -> bool
    ensures { IsTrue result ↔ AllByRecursion IsNetwork networks.now }
{
    let mut left = networks;
    while let [first, rest @ ..] = left {
        if first.number == 0 || first.number == 65535 {
            return false;
        }
        left = rest;
    }
    true
}
