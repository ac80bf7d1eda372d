// How large a text may be.

/// The most bytes of a text.
pub const MAX_BYTES: u32 = 4_194_304;

/// The most traces of a text.
pub const MAX_TRACES: u32 = 64;

/// The most requests of a text.
pub const MAX_REQUESTS: u32 = 131_072;

/// The greatest key. The two numbers above it serve a search tree as sentinels.
pub const MAX_KEY: u32 = 4_294_967_293;
