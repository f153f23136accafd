//! Laws of the spelling of items.

ghost use Rattle.std.specs.Prelude.{◌≡◌, List, ℕ, ◌++◌, Some, IsTrue};
ghost use Rattle.lt_terms.specs.Bytes.{AreBytes};
ghost use Rattle.lt_terms.specs.Items.{Item, is_valid, spelling, front_item};

/// What was spelled is read again, whatever follows it.
pub fn read_again()
    ensures { (item : Item) (rest : List ℕ) → IsTrue (is_valid item)
        → front_item (spelling item ++ rest) ≡ Some (item, rest) }
{}

/// What is read was spelled so, and is valid: no item has two spellings.
pub fn spelled_so()
    ensures { (bytes : List ℕ) (found : Item × List ℕ) → AreBytes bytes → front_item bytes ≡ Some found
        → (bytes ≡ spelling found.0 ++ found.1) × IsTrue (is_valid found.0) }
{}
