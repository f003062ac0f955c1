//! The faults that every layer shares: text that spells no value, memory that ran out, and a device call that failed.

use thiserror::Error;

/// No value spells the text.
#[derive(Clone, Copy, Debug, PartialEq, Eq, Error)]
#[error("BadText")]
pub struct BadText;

/// Memory ran out.
#[derive(Clone, Copy, Debug, PartialEq, Eq, Error)]
#[error("NoMemory")]
pub struct NoMemory;

/// A device call failed. The device's count of faults rose in that call.
#[derive(Clone, Copy, Debug, PartialEq, Eq, Error)]
#[error("Failed")]
pub struct Failed;
