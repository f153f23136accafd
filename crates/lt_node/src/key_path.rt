//! The node of a key at a level.

ghost use Rattle.std.specs.Prelude.{◌≡◌, ℕ, ◌≤◌, ◌<◌, ◌^◌, List, All, length};
ghost use Rattle.lt_item.specs.Parts.{parts_of};
ghost use Rattle.lt_format.specs.Trie.{path};
ghost use Rattle.lt_node.specs.Octal.{octal};

use lt_format::NodeId;
use lt_item::Parts;

/// The node of a key at a level, 0 to 4, by the parts of the key's hash.
pub fn path(parts: &Parts, level: u8) -> NodeId
    requires level { level ≤ 4 }
    requires digits { All (λ d. d < 8) parts.now.digits }
    ensures { (key : List ℕ) → parts.now ≡ parts_of key → result ≡ path key level }
{
    NodeId {
        level,
        number: octal(&parts.digits[..level as usize]),
    }
}

/// The number that these octal digits spell.
fn octal(digits: &[u8]) -> u16
    requires length { length digits.now ≤ 4 }
    requires digits { All (λ d. d < 8) digits.now }
    ensures { result ≡ octal 0 digits.now }
{
    let mut number = 0u16;
    for digit in digits {
        number = 8 * number + *digit as u16;
    }
    number
}
