//! The constants of conflict detection (RFC 5227, section 1.1). Times are in milliseconds.

/// The first probe is sent within this time.
pub const PROBE_WAIT: u32 = 1000;
/// How many probes are sent before an address is used.
pub const PROBE_NUM: u8 = 3;
/// The least time from one probe to the next.
pub const PROBE_MIN: u32 = 1000;
/// The greatest time from one probe to the next.
pub const PROBE_MAX: u32 = 2000;
/// The time from the last probe to the first announcement.
pub const ANNOUNCE_WAIT: u64 = 2000;
/// The time from the first announcement to the second.
pub const ANNOUNCE_INTERVAL: u64 = 2000;
/// From so many conflicts on, the next choice of an address waits (RFC 3927, section 9, has it too).
pub const MAX_CONFLICTS: u64 = 10;
/// It waits for this time (RFC 3927, section 9, has it too).
pub const RATE_LIMIT_INTERVAL: u64 = 60_000;
/// Two conflicts over an address that is used are one too many where they are closer.
pub const DEFEND_INTERVAL: u64 = 10_000;
