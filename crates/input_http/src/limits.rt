//! How long the parts of a request may be, in bytes.

/// The most bytes of a head, with the empty line that ends it.
pub const HEAD_LIMIT: usize = 16_384;

/// The most bytes of a body: a document of 16 MiB and 64 KiB of attributes.
pub const BODY_LIMIT: usize = 16_842_752;

/// The most bytes of the fields after a body in chunks, with the empty line that ends them.
pub const TRAILERS_LIMIT: usize = 4_096;
