//! All that hears octets, or takes them apart.

use crate::devices::HeardDevice;
use crate::explained::Explained;
use crate::frames::HeardBus;
use crate::managers::HeardManager;
use crate::ports::HeardPort;
use crate::routers::HeardRouter;
use crate::watched::Hearer;
use sheets::{Given, Stop};

/// What is said to all that hears octets.
pub(crate) trait Speaker {
    /// Says it to one of them.
    ///
    /// # Errors
    /// `Differs` where that does otherwise than it says; want of memory.
    fn say<H: Hearer>(&self, hearer: H) -> Result<(), Stop>;
}

/// Says it to all that hears octets, each in a state that it came to by what it heard.
///
/// # Errors
/// Those of each.
pub(crate) fn say_to_all<S: Speaker>(given: Given<'_>, speaker: &S) -> Result<(), Stop> {
    let Given { alloc, memory, .. } = given;
    speaker.say(Explained)?;
    speaker.say(HeardBus)?;
    speaker.say(HeardDevice::new(alloc, memory)?)?;
    speaker.say(HeardPort::new(memory)?)?;
    say_to_each(speaker, HeardRouter::all(alloc, memory)?)?;
    say_to_each(speaker, HeardManager::all(alloc, memory)?)
}

/// Says it to each of these.
fn say_to_each<S: Speaker, H: Hearer>(speaker: &S, all: Vec<H>) -> Result<(), Stop> {
    for hearer in all {
        speaker.say(hearer)?;
    }
    Ok(())
}
