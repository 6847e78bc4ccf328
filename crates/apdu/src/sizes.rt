//! What a requester can take: the codes of a Confirmed-Request's second octet.

ghost use Rattle.std.specs.Prelude.{◌≡◌, ◌≤◌, ◌<◌, MatchResult};
ghost use Rattle.apdu.specs.Sizes.{segments_code, segments_taken, apdu_code, apdu_taken, IsNamedSize};
ghost use Rattle.tags.specs.declared.fault.Fault.TheVariants.{NoSuch};

use tags::Fault;

/// How many segments of an answer the requester takes (20.1.2.4).
#[derive(Clone, Copy, Debug, PartialEq, Eq)]
pub enum MaxSegments {
    Unspecified = 0,
    Two = 1,
    Four = 2,
    Eight = 3,
    Sixteen = 4,
    ThirtyTwo = 5,
    SixtyFour = 6,
    /// More than 64.
    More = 7,
}

impl MaxSegments {
    /// How many segments are sent at most: 2 to 64, which also stands for a number that isn't
    /// specified and for more.
    pub fn segments(self) -> u8
        ensures { result ≡ segments_taken self }
    {
        match self {
            MaxSegments::Two => 2,
            MaxSegments::Four => 4,
            MaxSegments::Eight => 8,
            MaxSegments::Sixteen => 16,
            MaxSegments::ThirtyTwo => 32,
            MaxSegments::Unspecified | MaxSegments::SixtyFour | MaxSegments::More => 64,
        }
    }
}

/// The code, 0 to 7.
impl From<MaxSegments> for u8 {
    ghost from_gives = { λ segments n. (n ≡ segments_code segments) × (n < 8) };

    fn from(segments: MaxSegments) -> u8 {
        segments as u8
    }
}

/// The number of segments of a code; one over 7 is refused as `NoSuch`.
impl TryFrom<u8> for MaxSegments {
    type Error = Fault;

    ghost try_from_gives = { λ n r. MatchResult r (λ segments. segments_code segments ≡ n)
        (λ e. (e ≡ NoSuch) × (8 ≤ n)) };

    fn try_from(code: u8) -> Result<MaxSegments, Fault> {
        Ok(match code {
            0 => MaxSegments::Unspecified,
            1 => MaxSegments::Two,
            2 => MaxSegments::Four,
            3 => MaxSegments::Eight,
            4 => MaxSegments::Sixteen,
            5 => MaxSegments::ThirtyTwo,
            6 => MaxSegments::SixtyFour,
            7 => MaxSegments::More,
            _ => return Err(Fault::NoSuch),
        })
    }
}

/// How many octets an APDU to the requester has at most (20.1.2.5).
#[derive(Clone, Copy, Debug, PartialEq, Eq)]
pub enum MaxApdu {
    /// The least that each station takes.
    UpTo50,
    UpTo128,
    /// Fits a LonTalk frame.
    UpTo206,
    /// Fits an MS/TP frame.
    UpTo480,
    UpTo1024,
    /// Fits a datagram of BACnet/IP.
    UpTo1476,
    /// A code that the standard reserves, 6 to 15.
    Reserved(u8),
}

impl MaxApdu {
    /// How many octets are sent at most: 50 to 1476, and 50 for a reserved code.
    pub fn octets(self) -> u16
        ensures { result ≡ apdu_taken self }
    {
        match self {
            MaxApdu::UpTo50 | MaxApdu::Reserved(_) => 50,
            MaxApdu::UpTo128 => 128,
            MaxApdu::UpTo206 => 206,
            MaxApdu::UpTo480 => 480,
            MaxApdu::UpTo1024 => 1024,
            MaxApdu::UpTo1476 => 1476,
        }
    }
}

/// The code, 0 to 15.
impl From<MaxApdu> for u8 {
    ghost from_gives = { λ size n. n ≡ apdu_code size };

    fn from(size: MaxApdu) -> u8 {
        match size {
            MaxApdu::UpTo50 => 0,
            MaxApdu::UpTo128 => 1,
            MaxApdu::UpTo206 => 2,
            MaxApdu::UpTo480 => 3,
            MaxApdu::UpTo1024 => 4,
            MaxApdu::UpTo1476 => 5,
            MaxApdu::Reserved(code) => code,
        }
    }
}

/// The size of a code, by its name where it has one.
impl From<u8> for MaxApdu {
    ghost from_gives = { λ n size. (apdu_code size ≡ n) × IsNamedSize size };

    fn from(code: u8) -> MaxApdu {
        match code {
            0 => MaxApdu::UpTo50,
            1 => MaxApdu::UpTo128,
            2 => MaxApdu::UpTo206,
            3 => MaxApdu::UpTo480,
            4 => MaxApdu::UpTo1024,
            5 => MaxApdu::UpTo1476,
            code => MaxApdu::Reserved(code),
        }
    }
}
