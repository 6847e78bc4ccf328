//! How many networks there are, and their numbers.

ghost use Rattle.std.specs.Prelude.{◌↔◌, IfOk, IsTrue};
ghost use Rattle.std.specs.List.{AllByRecursion};
ghost use Rattle.site.specs.Networks.{AreFewNetworks, AreNetworks, IsNetwork};

use crate::part::Part;
use crate::told::{Listener, Told};
use profile::MAX_NETWORKS;
use site::{are_few_networks, have_numbers};
use site_parts::Network;
use std::io;

/// Whether there are a few networks with numbers in range (6.2.2); what is wrong is told.
pub(crate) fn tell_networks<L: Listener>(networks: &[Network], out: &mut L) -> io::Result<bool>
    ensures { IfOk result (λ b. IsTrue b ↔ AreNetworks networks.now) }
{
    let few = tell_few(networks, out)?;
    let range = tell_numbers(networks, out)?;
    Ok(few && range)
}

fn tell_few<L: Listener>(networks: &[Network], out: &mut L) -> io::Result<bool>
    ensures { IfOk result (λ b. IsTrue b ↔ AreFewNetworks networks.now) }
{
    let is_sound = are_few_networks(networks);
    if !is_sound {
        tell_count(networks.len(), out)?;
    }
    Ok(is_sound)
}

fn tell_count<L: Listener>(number: usize, out: &mut L) -> io::Result<()> {
    if number == 0 {
        return out.tell(Told::NoNetwork.of(Part::Site.whole()));
    }
    let first_too_many = Part::Network(MAX_NETWORKS);
    out.tell(Told::ManyNetworks(number).of(first_too_many.whole()))
}

fn tell_numbers<L: Listener>(networks: &[Network], out: &mut L) -> io::Result<bool>
    ensures { IfOk result (λ b. IsTrue b ↔ AllByRecursion IsNetwork networks.now) }
{
    let is_sound = have_numbers(networks);
    if !is_sound {
        out.tell(Told::NetworkNumber.of(Part::Site.whole()))?;
    }
    Ok(is_sound)
}
