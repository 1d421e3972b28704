//! The equipment constants by name (SEMI E5, ECID; this tool's profile, variables).

/// How long the tool waits before it asks for communication again, in hundredths of a second.
pub const ESTABLISH_TIMEOUT: u32 = 201;

/// How many spooled notes are sent at one request of the host, 0 for all.
pub const MAX_SPOOL_TRANSMIT: u32 = 202;

/// Whether a full spool drops its oldest note, and else the new one.
pub const OVERWRITE_SPOOL: u32 = 203;

/// How long the tool waits for a reply, in hundredths of a second (SEMI E37, T3).
pub const T3: u32 = 204;

/// How long a link may be without being selected, in hundredths of a second (SEMI E37, T7).
pub const T7: u32 = 205;

/// How long the tool waits for an answer on the link, in hundredths of a second (SEMI E37, T6).
pub const T6: u32 = 206;

/// How often the tool tests the link, in hundredths of a second, 0 for never (SEMI E37, linktest).
pub const LINKTEST_PERIOD: u32 = 207;

/// All of them, rising.
pub const ALL: [u32; 7] = [
    ESTABLISH_TIMEOUT,
    MAX_SPOOL_TRANSMIT,
    OVERWRITE_SPOOL,
    T3,
    T7,
    T6,
    LINKTEST_PERIOD,
];
