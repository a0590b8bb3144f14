//! Why a program could not read its input, hold its output or write it.
ghost use Rattle.byte_streams.specs.declared.error.StreamError.TheVariants.{OutOfMemory};
ghost use Rattle.std.specs.Prelude.{◌≡◌};

use std::alloc::AllocError;
use std::io;
use thiserror::Error;

/// Why the bytes of a source were not all read, made into output and written to a sink: one variant for each of these steps.
#[derive(Debug, Drop, Error)]
pub enum StreamError {
    /// The source returned this error.
    #[error("reading failed: {0}")]
    Reading(io::Error),
    /// No memory was left for the output.
    #[error("out of memory")]
    OutOfMemory,
    /// The sink returned this error.
    #[error("writing failed: {0}")]
    Writing(io::Error),
}

impl From<AllocError> for StreamError {
    ghost from_gives = { λ _ e. e ≡ OutOfMemory };

    fn from(_error: AllocError) -> StreamError {
        StreamError::OutOfMemory
    }
}
