//! The codes of a result.

ghost use Rattle.std.specs.Prelude.{◌≡◌};
ghost use Rattle.bvll.specs.Code.{code_number, IsNamed};

/// How a manager took a request (J.2.1).
#[derive(Clone, Copy, Debug, PartialEq, Eq)]
pub enum ResultCode {
    /// Successful completion.
    Success,
    WriteBroadcastDistributionTableNak,
    ReadBroadcastDistributionTableNak,
    RegisterForeignDeviceNak,
    ReadForeignDeviceTableNak,
    DeleteForeignDeviceTableEntryNak,
    DistributeBroadcastToNetworkNak,
    /// A number that the standard gives no meaning.
    Other(u16),
}

/// The number of a code, as its two octets have it.
impl From<ResultCode> for u16 {
    ghost from_gives = { λ code n. n ≡ code_number code };

    fn from(code: ResultCode) -> u16 {
        match code {
            ResultCode::Success => 0x0000,
            ResultCode::WriteBroadcastDistributionTableNak => 0x0010,
            ResultCode::ReadBroadcastDistributionTableNak => 0x0020,
            ResultCode::RegisterForeignDeviceNak => 0x0030,
            ResultCode::ReadForeignDeviceTableNak => 0x0040,
            ResultCode::DeleteForeignDeviceTableEntryNak => 0x0050,
            ResultCode::DistributeBroadcastToNetworkNak => 0x0060,
            ResultCode::Other(number) => number,
        }
    }
}

/// The code of a number, by its name where it has one.
impl From<u16> for ResultCode {
    ghost from_gives = { λ n code. (code_number code ≡ n) × IsNamed code };

    fn from(number: u16) -> ResultCode {
        match number {
            0x0000 => ResultCode::Success,
            0x0010 => ResultCode::WriteBroadcastDistributionTableNak,
            0x0020 => ResultCode::ReadBroadcastDistributionTableNak,
            0x0030 => ResultCode::RegisterForeignDeviceNak,
            0x0040 => ResultCode::ReadForeignDeviceTableNak,
            0x0050 => ResultCode::DeleteForeignDeviceTableEntryNak,
            0x0060 => ResultCode::DistributeBroadcastToNetworkNak,
            _ => ResultCode::Other(number),
        }
    }
}
