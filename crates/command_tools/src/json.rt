//! What is done behind lines that are printed as JSON.

ghost use Rattle.std.specs.Prelude.{◌≡◌, ◌⊎◌};

use console::say_failed;
use std::io;
use std::io::Write;

/// The exit status once the last line is written, which may fail: that counts where all else is done.
pub fn ended<E: Write>(status: u8, written: io::Result<()>, err: &mut E) -> u8
    ensures { (result ≡ status) ⊎ (((status ≡ 0) ⊎ (status ≡ 4)) × (result ≡ 1)) }
{
    match written {
        Err(error) if status == 0 || status == 4 => say_failed(&error, err),
        Ok(()) | Err(_) => status,
    }
}
