//! The parameters of each message (RFC 8415, sections 7.6 and 18.2), in milliseconds.

/// The first SOLICIT's time, SOL_TIMEOUT.
pub const SOL_TIMEOUT: u64 = 1_000;

/// The upper bound of a SOLICIT's time, SOL_MAX_RT, where no server has told another.
pub const SOL_MAX_RT: u64 = 3_600_000;

/// The first REQUEST's time, REQ_TIMEOUT.
pub const REQ_TIMEOUT: u64 = 1_000;

/// The upper bound of a REQUEST's time, REQ_MAX_RT.
pub const REQ_MAX_RT: u64 = 30_000;

/// How often a REQUEST is said, REQ_MAX_RC.
pub const REQ_MAX_RC: u32 = 10;

/// The first RENEW's time, REN_TIMEOUT.
pub const REN_TIMEOUT: u64 = 10_000;

/// The upper bound of a RENEW's time, REN_MAX_RT.
pub const REN_MAX_RT: u64 = 600_000;

/// The first REBIND's time, REB_TIMEOUT.
pub const REB_TIMEOUT: u64 = 10_000;

/// The upper bound of a REBIND's time, REB_MAX_RT.
pub const REB_MAX_RT: u64 = 600_000;

/// The first DECLINE's time, DEC_TIMEOUT.
pub const DEC_TIMEOUT: u64 = 1_000;

/// How often a DECLINE is said, DEC_MAX_RC.
pub const DEC_MAX_RC: u32 = 4;

/// What controls the retransmission of a message (RFC 8415, section 15). As there, 0 stands for no limit.
#[derive(Clone, Copy, PartialEq, Eq)]
pub struct Parameters {
    /// IRT, the time after the first message.
    pub irt: u64,
    /// MRT, the upper bound of the time, or 0.
    pub mrt: u64,
    /// MRC, how often the message is said in all, or 0.
    pub mrc: u32,
}

/// Of SOLICIT: without an end (RFC 8415, section 18.2.1).
pub const SOLICIT: Parameters = Parameters {
    irt: SOL_TIMEOUT,
    mrt: SOL_MAX_RT,
    mrc: 0,
};

/// Of REQUEST: ten times (RFC 8415, section 18.2.2).
pub const REQUEST: Parameters = Parameters {
    irt: REQ_TIMEOUT,
    mrt: REQ_MAX_RT,
    mrc: REQ_MAX_RC,
};

/// Of RENEW: until T2 (RFC 8415, section 18.2.4).
pub const RENEW: Parameters = Parameters {
    irt: REN_TIMEOUT,
    mrt: REN_MAX_RT,
    mrc: 0,
};

/// Of REBIND: until the last lifetime ends (RFC 8415, section 18.2.5).
pub const REBIND: Parameters = Parameters {
    irt: REB_TIMEOUT,
    mrt: REB_MAX_RT,
    mrc: 0,
};

/// Of DECLINE: four times (RFC 8415, section 18.2.8).
pub const DECLINE: Parameters = Parameters {
    irt: DEC_TIMEOUT,
    mrt: 0,
    mrc: DEC_MAX_RC,
};
