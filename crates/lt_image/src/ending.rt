//! Why dealing and rewriting come to an end.

ghost use Rattle.std.specs.Prelude.{◌≡◌, ℕ, ◌<◌, ◌≤◌, List, ◌∷◌, ◌++◌, IsFalse, IsTrue, length};
ghost use Rattle.std.specs.List.{AllByRecursion};
ghost use Rattle.lt_format.specs.declared.node_id.NodeId.{NodeId};
ghost use Rattle.lt_format.specs.Changes.{ChildChange, after_change, deal, fits, new_extents, rewrite};
ghost use Rattle.lt_format.specs.Trie.{IsTrie, Trie, all_below, node_at};
ghost use Rattle.lt_image.specs.Needs.{is_full};
ghost use Rattle.lt_image.specs.Work.{digit_base, number_of_digits, trie_digits};

/// Of two lists of as many digits the one whose first different digit is smaller makes the smaller number,
/// whatever follows below the base.
pub fn digits_decide()
    ensures { (front xs ys : List ℕ) (c d : ℕ) → c < d → length xs ≡ length ys
        → AllByRecursion (λ k. k < digit_base) xs
        → number_of_digits (front ++ c ∷ xs) < number_of_digits (front ++ d ∷ ys) }
{}

/// Each digit of a trie is at most the number of the store's extents, and so below the base.
pub fn digits_are_small()
    ensures within { (levels extents : ℕ) (trie : Trie) → IsTrie levels extents trie
        → AllByRecursion (λ d. d ≤ extents) (trie_digits levels trie) }
    ensures below { (levels extents : ℕ) (trie : Trie) → extents ≤ 65536 → IsTrie levels extents trie
        → AllByRecursion (λ d. d < digit_base) (trie_digits levels trie) }
{}

/// A deal and a rewriting of a due pile lower the number that a trie's digits make, whatever digits follow
/// them. A rewriting of a pile that is not due leaves the trie's digits as they are.
pub fn moves_lower_work()
    ensures deal { (levels extents : ℕ) (trie : Trie) (id : NodeId) (dropped : ℕ) (children : List ChildChange)
        (xs ys : List ℕ) → extents ≤ 65536 → IsTrie levels extents trie
        → IsTrue (fits levels trie (deal id dropped children))
        → IsTrue (all_below extents (new_extents (deal id dropped children)))
        → length xs ≡ length ys → AllByRecursion (λ d. d < digit_base) xs
        → number_of_digits (trie_digits levels (after_change trie (deal id dropped children)) ++ xs)
        < number_of_digits (trie_digits levels trie ++ ys) }
    ensures due { (levels extents : ℕ) (trie : Trie) (id : NodeId) (tables groups xs ys : List ℕ)
        → IsTrie levels extents trie → IsTrue (fits levels trie (rewrite id tables groups))
        → IsTrue (is_full levels (id, node_at trie id))
        → length xs ≡ length ys → AllByRecursion (λ d. d < digit_base) xs
        → number_of_digits (trie_digits levels (after_change trie (rewrite id tables groups)) ++ xs)
        < number_of_digits (trie_digits levels trie ++ ys) }
    ensures other { (levels extents : ℕ) (trie : Trie) (id : NodeId) (tables groups : List ℕ)
        → IsTrie levels extents trie → IsTrue (fits levels trie (rewrite id tables groups))
        → IsFalse (is_full levels (id, node_at trie id))
        → trie_digits levels (after_change trie (rewrite id tables groups)) ≡ trie_digits levels trie }
{}
