//! A number that stands for octets.

/// A number that differs for other octets, but for one time in 2^64 (FNV-1a).
pub fn digest_of(octets: &[u8]) -> u64 {
    let mut digest = 0xCBF2_9CE4_8422_2325u64;
    for octet in octets {
        digest = (digest ^ u64::from(*octet)).wrapping_mul(0x0000_0100_0000_01B3);
    }
    digest
}
