//! The priority of a message.

ghost use Rattle.std.specs.Prelude.{◌≡◌, ◌≤◌, MatchResult};
ghost use Rattle.npdu.specs.Priority.{priority_number};
ghost use Rattle.tags.specs.declared.fault.Fault.TheVariants.{NoSuch};

use tags::Fault;

/// The priority of a message on its way through the routers, in bits 1 and 0 of the control octet (6.2.2).
#[derive(Clone, Copy, Debug, PartialEq, Eq)]
pub enum Priority {
    Normal = 0,
    Urgent = 1,
    CriticalEquipment = 2,
    LifeSafety = 3,
}

impl From<Priority> for u8 {
    ghost from_gives = { λ priority n. n ≡ priority_number priority };

    fn from(priority: Priority) -> u8 {
        priority as u8
    }
}

impl TryFrom<u8> for Priority {
    type Error = Fault;

    ghost try_from_gives = { λ n r. MatchResult r (λ priority. priority_number priority ≡ n)
        (λ fault. (fault ≡ NoSuch) × (4 ≤ n)) };

    fn try_from(number: u8) -> Result<Priority, Fault> {
        match number {
            0 => Ok(Priority::Normal),
            1 => Ok(Priority::Urgent),
            2 => Ok(Priority::CriticalEquipment),
            3 => Ok(Priority::LifeSafety),
            _ => Err(Fault::NoSuch),
        }
    }
}
