//! A law of logs.

ghost use Rattle.lt_redo.specs.Slots.{LogsAreLocal};

/// A log is told by the blocks of its area alone.
pub fn logs_are_local()
    ensures { LogsAreLocal }
{}
