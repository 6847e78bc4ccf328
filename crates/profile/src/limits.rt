//! Counts and sizes of the profile. Where the standard has a name for one (9.5.6, 12.11, 20.1.2.8), it has that name;
//! the values are this product's.

ghost use Rattle.std.specs.Prelude.{◌≡◌};
ghost use Rattle.profile.specs.Limits as spec;

/// How often a request, or a window of segments, is said again (12.11, Number_Of_APDU_Retries).
pub const NUMBER_OF_APDU_RETRIES: u8 = 3;

/// The window size that is proposed, and the greatest that is granted, in segments (20.1.2.8).
pub const WINDOW_SIZE: u8 = 4;

/// The greatest number of segments of a message (12.11, Max_Segments_Accepted).
pub const MAX_SEGMENTS_ACCEPTED: u8 = 64;

/// The greatest number of octets of service data in a message.
pub const MAX_SERVICE_DATA_OCTETS: usize = 16_384;

/// How many answers a device remembers (5.4.5).
pub const MAX_REMEMBERED: usize = 64;

/// How many requests a device assembles at a time (5.4.5).
pub const MAX_GATHERINGS: usize = 16;

/// How many devices a client is bound to (16.10).
pub const MAX_BINDINGS: usize = 256;

/// How many routes a router learns (6.6.3).
pub const MAX_LEARNED_ROUTES: usize = 256;

/// How many foreign devices a broadcast manager serves (J.5.2).
pub const MAX_FOREIGN_DEVICES: usize = 32;

/// How many other managers a broadcast manager has (J.4.3).
pub const MAX_PEERS: usize = 16;

/// How many objects a device has, its Device object not counted.
pub const MAX_OBJECTS: usize = 512;

/// How many devices a site has.
pub const MAX_DEVICES: usize = 256;

/// How many networks a site has.
pub const MAX_NETWORKS: usize = 250;

/// The longest text that a property takes, in octets.
pub const MAX_TEXT_OCTETS: usize = 128;

/// The room for a datagram that is received, in octets: one that fills it isn't whole.
pub const MAX_DATAGRAM_OCTETS: usize = 2048;

/// The greatest number of octets of data in a frame on MS/TP (9.3).
pub const MAX_FRAME_DATA_OCTETS: usize = 501;

/// The longest name of a station, in octets.
pub const MAX_NAME_OCTETS: usize = 32;

/// How many tokens a master node has before it polls for others (9.5.6, Npoll).
pub const N_POLL: u8 = 50;

/// How often a master node gives a token again that isn't taken (9.5.6, Nretry_token).
pub const N_RETRY_TOKEN: u8 = 1;

/// How many octets show a master node that the token was taken (9.5.6, Nmin_octets).
pub const N_MIN_OCTETS: u8 = 4;

/// The limits of transactions (5.4): each is that of its definition.
pub fn transaction_limits() -> (u8, u8, u8, usize, usize, usize, usize)
    ensures retries { result.0 ≡ spec.NUMBER_OF_APDU_RETRIES }
    ensures window_size { result.1 ≡ spec.WINDOW_SIZE }
    ensures segments { result.2 ≡ spec.MAX_SEGMENTS_ACCEPTED }
    ensures service_data { result.3 ≡ spec.MAX_SERVICE_DATA_OCTETS }
    ensures remembered { result.4 ≡ spec.MAX_REMEMBERED }
    ensures assemblies { result.5 ≡ spec.MAX_GATHERINGS }
    ensures bindings { result.6 ≡ spec.MAX_BINDINGS }
{
    (
        NUMBER_OF_APDU_RETRIES,
        WINDOW_SIZE,
        MAX_SEGMENTS_ACCEPTED,
        MAX_SERVICE_DATA_OCTETS,
        MAX_REMEMBERED,
        MAX_GATHERINGS,
        MAX_BINDINGS,
    )
}

/// How many a router, a manager, a device and a site have, and the longest text and datagram: each is that of its
/// definition.
pub fn counts() -> (usize, usize, usize, usize, usize, usize, usize, usize)
    ensures routes { result.0 ≡ spec.MAX_LEARNED_ROUTES }
    ensures foreign_devices { result.1 ≡ spec.MAX_FOREIGN_DEVICES }
    ensures peers { result.2 ≡ spec.MAX_PEERS }
    ensures objects { result.3 ≡ spec.MAX_OBJECTS }
    ensures devices { result.4 ≡ spec.MAX_DEVICES }
    ensures networks { result.5 ≡ spec.MAX_NETWORKS }
    ensures text { result.6 ≡ spec.MAX_TEXT_OCTETS }
    ensures datagram { result.7 ≡ spec.MAX_DATAGRAM_OCTETS }
{
    (
        MAX_LEARNED_ROUTES,
        MAX_FOREIGN_DEVICES,
        MAX_PEERS,
        MAX_OBJECTS,
        MAX_DEVICES,
        MAX_NETWORKS,
        MAX_TEXT_OCTETS,
        MAX_DATAGRAM_OCTETS,
    )
}

/// The most octets of a frame's data and of a station's name: each is that of its definition.
pub fn sizes() -> (usize, usize)
    ensures frame_data { result.0 ≡ spec.MAX_FRAME_DATA_OCTETS }
    ensures name { result.1 ≡ spec.MAX_NAME_OCTETS }
{
    (MAX_FRAME_DATA_OCTETS, MAX_NAME_OCTETS)
}

/// The counts of a master node (9.5.6): each is that of its definition.
pub fn token_counts() -> (u8, u8, u8)
    ensures poll { result.0 ≡ spec.N_POLL }
    ensures retry_token { result.1 ≡ spec.N_RETRY_TOKEN }
    ensures min_octets { result.2 ≡ spec.N_MIN_OCTETS }
{
    (N_POLL, N_RETRY_TOKEN, N_MIN_OCTETS)
}
