//! Names of stations.

ghost use Rattle.std.specs.Prelude.{◌↔◌, IsTrue};
ghost use Rattle.std.specs.List.{AllByRecursion};
ghost use Rattle.site_parts.specs.Names.{IsName, IsSign};

use profile::MAX_NAME_OCTETS;

/// Whether octets are the name of a station: 1 to 32 letters and digits.
pub fn is_name(octets: &[u8]) -> bool
    ensures { IsTrue result ↔ IsName octets.now }
{
    !octets.is_empty() && octets.len() <= MAX_NAME_OCTETS && are_signs(octets)
}

/// Whether octets are letters and digits.
fn are_signs(octets: &[u8]) -> bool
    ensures { IsTrue result ↔ AllByRecursion IsSign octets.now }
{
    let mut left = octets;
    while let [first, rest @ ..] = left {
        if !is_sign(*first) {
            return false;
        }
        left = rest;
    }
    true
}

/// Whether an octet is a letter or a digit of ASCII.
fn is_sign(octet: u8) -> bool
    ensures { IsTrue result ↔ IsSign octet }
{
    (48 <= octet && octet <= 57) || (65 <= octet && octet <= 90) || (97 <= octet && octet <= 122)
}
