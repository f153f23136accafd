//! What is kept of a line is enough to tell its command.

ghost use Rattle.std.specs.Prelude.{◌≡◌, ◌↔◌, ℕ, List, [], ◌++◌};
ghost use Rattle.lt_language.specs.Commands.{command_of};
ghost use Rattle.lt_line.specs.Held.{kept_of};

/// The command of a line is that of what is kept of it.
pub fn kept_is_enough()
    ensures command { (line : List ℕ) → command_of (kept_of line) ≡ command_of line }
    ensures goes_on { (line more : List ℕ) → kept_of (kept_of line ++ more) ≡ kept_of (line ++ more) }
    ensures none { kept_of [] ≡ [] }
    ensures nothing { (line : List ℕ) → kept_of line ≡ [] → line ≡ [] }
{}
