//! The greatest numbers of options, and those that are taken where none is given.

/// The most connections that one run serves.
pub const COUNT_MAX: u64 = 1_000_000;

/// The most seconds that a read or a write may be given.
pub const TIMEOUT_MAX: u64 = 3600;

/// The most seconds for which connecting is tried again.
pub const WAIT_MAX: u64 = 3600;

/// The most connections that are open at once.
pub const AT_ONCE_MAX: u64 = 10_000;

/// The most seconds that a connection may be idle.
pub const IDLE_MAX: u64 = 86_400;

/// The greatest number of a body's first bytes that are printed.
pub const BODIES_MAX: u64 = 65_535;

/// The most seconds that a load lasts.
pub const LOAD_SECONDS_MAX: u64 = 86_400;

/// The most messages of a load.
pub const MESSAGES_MAX: u64 = 4_000_000_000;

/// The most messages that a load has in a second.
pub const RATE_MAX: u64 = 1_000_000;

/// The greatest seed.
pub const SEED_MAX: u64 = 4_294_967_295;

/// The most bytes after which a connection is closed.
pub const SENT_MAX: u64 = 4_294_967_295;

/// The greatest digits of a mode.
pub const MODE_MAX: u64 = 777;

/// How many connections are served where the command line has no number of them.
pub const COUNT_DEFAULT: u32 = 1;

/// How many seconds a read or a write may take where the command line has no number of them.
pub const TIMEOUT_DEFAULT: u32 = 30;

/// How many connections are open at once where the command line has no number of them.
pub const AT_ONCE_DEFAULT: u32 = 200;

/// After how many seconds an idle connection is closed where the command line has no number of them: as libmilter.
pub const IDLE_DEFAULT: u32 = 7_210;

/// The digits of a Unix socket's mode where the command line has none.
pub const MODE_DEFAULT: u32 = 660;

/// How many connections a load has at once where the command line has no number of them.
pub const LOAD_AT_ONCE_DEFAULT: u32 = 1;

/// The seed where the command line has none.
pub const SEED_DEFAULT: u32 = 1;

/// How many seconds a reply of a filter that is tried may take where the command line has no number of them.
pub const PROBE_TIMEOUT_DEFAULT: u32 = 5;
