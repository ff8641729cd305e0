//! How the command ended.

/// All was written, and every task came to its end.
pub const ALL_DONE: u8 = 0;

/// All was written, and a task ended by a fault.
pub const TASK_FAULTED: u8 = 1;

/// The words are no command.
pub const WORDS_REFUSED: u8 = 2;

/// Memory was refused.
pub const MEMORY: u8 = 3;

/// The source failed.
pub const SOURCE_FAILED: u8 = 4;

/// The sink failed.
pub const SINK_FAILED: u8 = 5;

/// The script is refused.
pub const REFUSED: u8 = 6;
