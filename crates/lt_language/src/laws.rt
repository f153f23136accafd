//! Laws of the lines of a list of bytes, and of the commands that they are.

ghost use Rattle.std.specs.Bool.{IsFalse};
ghost use Rattle.std.specs.Prelude.{◌≡◌, ℕ, List, [], ◌∷◌, ◌++◌};
ghost use Rattle.lt_language.specs.Commands.{command_of, line_feed, has_line_feed, split_lines, lines_of, rest_of};
ghost use Rattle.lt_language.specs.Commands.{IsSplit};
ghost use Rattle.lt_language.specs.Valid.{IsWithinLimits};

/// Bytes are lines and a rest in exactly one way.
pub fn one_split()
    ensures is_one { (bytes : List ℕ) → IsSplit bytes (lines_of bytes) (rest_of bytes) }
    ensures only { (bytes : List ℕ) (lines : List (List ℕ)) (rest : List ℕ) → IsSplit bytes lines rest
        → (lines_of bytes ≡ lines) × (rest_of bytes ≡ rest) }
{}

/// What more bytes make of the lines and the rest.
pub fn lines_go_on()
    ensures append { (a b : List ℕ)
        → split_lines (a ++ b) ≡ (lines_of a ++ lines_of (rest_of a ++ b), rest_of (rest_of a ++ b)) }
    // Bytes without a line feed are more of the unfinished line.
    ensures unbroken { (a b : List ℕ) → IsFalse (has_line_feed b)
        → split_lines (a ++ b) ≡ (lines_of a, rest_of a ++ b) }
    // With a line feed behind them they end it.
    ensures ended { (a b : List ℕ) → IsFalse (has_line_feed b)
        → split_lines (a ++ (b ++ line_feed ∷ [])) ≡ (lines_of a ++ (rest_of a ++ b) ∷ [], []) }
{}

/// The commands that lines are keep to the limits of keys and values.
pub fn commands_within_limits()
    ensures { (line : List ℕ) → IsWithinLimits (command_of line) }
{}
