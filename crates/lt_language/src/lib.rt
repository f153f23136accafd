//! The line language and the machine that answers it: what the top call promises is said in these words.
#![tactic(auto)]

mod laws;

pub use laws::{commands_within_limits, lines_go_on, one_split};

/// Why a line is refused.
#[derive(Clone, Copy, Debug, PartialEq, Eq)]
pub enum Bad {
    /// It has more than 3,260 bytes.
    Long,
    /// It is none of the commands.
    Syntax,
    /// Its key has no byte, more than 255 bytes, or a space.
    Key,
    /// Its value has more than 3,000 bytes.
    Value,
    /// It has no line feed at the end of the input.
    End,
}
