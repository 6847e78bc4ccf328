//! The functions of the layer, and their numbers.

ghost use Rattle.std.specs.Prelude.{◌≡◌, ◌<◌, MatchResult};
ghost use Rattle.bvll.specs.Function.{number_of};
ghost use Rattle.tags.specs.declared.fault.Fault.TheVariants.{BadTag};

use tags::Fault;

/// What a datagram asks for or carries: its second octet (J.2.1 to J.2.12).
#[derive(Clone, Copy, Debug, PartialEq, Eq)]
pub enum Function {
    Result = 0x00,
    WriteBroadcastDistributionTable = 0x01,
    ReadBroadcastDistributionTable = 0x02,
    ReadBroadcastDistributionTableAck = 0x03,
    ForwardedNpdu = 0x04,
    RegisterForeignDevice = 0x05,
    ReadForeignDeviceTable = 0x06,
    ReadForeignDeviceTableAck = 0x07,
    DeleteForeignDeviceTableEntry = 0x08,
    DistributeBroadcastToNetwork = 0x09,
    OriginalUnicastNpdu = 0x0A,
    OriginalBroadcastNpdu = 0x0B,
}

/// The number of a function, 0 to 11.
impl From<Function> for u8 {
    ghost from_gives = { λ function n. n ≡ number_of function };

    fn from(function: Function) -> u8 {
        function as u8
    }
}

/// The function of a number; one over 11 is refused as `BadTag`.
impl TryFrom<u8> for Function {
    type Error = Fault;

    ghost try_from_gives = { λ n r. MatchResult r (λ function. number_of function ≡ n) (λ e. (e ≡ BadTag) × (11 < n)) };

    fn try_from(number: u8) -> Result<Function, Fault> {
        Ok(match number {
            0x00 => Function::Result,
            0x01 => Function::WriteBroadcastDistributionTable,
            0x02 => Function::ReadBroadcastDistributionTable,
            0x03 => Function::ReadBroadcastDistributionTableAck,
            0x04 => Function::ForwardedNpdu,
            0x05 => Function::RegisterForeignDevice,
            0x06 => Function::ReadForeignDeviceTable,
            0x07 => Function::ReadForeignDeviceTableAck,
            0x08 => Function::DeleteForeignDeviceTableEntry,
            0x09 => Function::DistributeBroadcastToNetwork,
            0x0A => Function::OriginalUnicastNpdu,
            0x0B => Function::OriginalBroadcastNpdu,
            _ => return Err(Fault::BadTag),
        })
    }
}
