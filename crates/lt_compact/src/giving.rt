//! Extents that are given back.

ghost use Rattle.std.specs.Prelude.{◌≡◌, ℕ, ◌<◌, ◌||◌, IsTrue, length};
ghost use Rattle.lt_terms.specs.Bytes.{is_in};
ghost use Rattle.lt_alloc.specs.Extents.{is_free};
ghost use Rattle.lt_format.specs.Trie.{all_distinct};
ghost use Rattle.lt_compact.specs.Extents.{AllTaken};

use lt_alloc::Extents;

/// Gives extents back that are taken.
pub(super) fn give_back(extents: &mut Extents, numbers: &[u32])
    requires distinct { IsTrue (all_distinct numbers.now) }
    requires taken { AllTaken extents.old numbers.now }
    ensures free { (x : ℕ) → is_free extents.new x ≡ (is_free extents.old x
        || is_in x numbers.now) }
    ensures extents { length extents.new ≡ length extents.old }
{
    for number in numbers {
        extents.give(*number);
    }
}
