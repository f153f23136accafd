//! Worked examples of deals, rewritings and the bound of a get.

ghost use Rattle.std.specs.Prelude.{◌≡◌, List, [], ◌∷◌, Some, None, codes, false, map, replicate, true};
ghost use Rattle.lt_terms.specs.Bytes.{Image};
ghost use Rattle.lt_terms.specs.Items.{delete_of, put_of};
ghost use Rattle.lt_tables.specs.declared.Sends.{Sends};
ghost use Rattle.lt_tables.specs.Bucket.{sends_on};
ghost use Rattle.lt_tables.specs.Filter.{covers};
ghost use Rattle.lt_format.specs.Changes.{after_change};
ghost use Rattle.lt_format.specs.Trie.{child, root};
ghost use Rattle.lt_image.specs.Bound.{holds_key, read_bound};
ghost use Rattle.lt_image.specs.Examples.{grouped_trie, inner_deal, inner_trie, last_trie, long_keys, long_put};
ghost use Rattle.lt_image.specs.Examples.{old_versions, pile, three_keys, two_levels};
ghost use Rattle.lt_image.specs.Needs.{has_slack};
ghost use Rattle.lt_image.specs.Versions.{Opened, extent_in, items_at};
ghost use Rattle.lt_image.specs.Shares.{Share, deal_shares, kept_groups, needed, new_groups, rewrite_share};
ghost use Rattle.lt_image.specs.Shares.{share_extents};

/// A deal to two children of an inner level: the newest item of each key goes to the child that its digit
/// names, the delete too, behind the tables that the child has. The root is left without tables.
pub fn inner_deal_by_example()
    ensures shares { deal_shares inner_trie root three_keys
        ≡ record { node = child root 1; behind = []; parts = (delete_of (codes "d") ∷ []) ∷ [] }
        ∷ record {
          node = child root 4;
          behind = 8 ∷ 9 ∷ [];
          parts = (put_of (codes "c") (3 ∷ []) ∷ put_of (codes "a") (4 ∷ []) ∷ []) ∷ [];
        } ∷ [] }
    ensures needs { needed 3 inner_trie root three_keys ≡ 2 }
    ensures trie { after_change inner_trie inner_deal
        ≡ (child root 1, pile 20 1 [])
        ∷ (child root 4, record { base = 0; tables = 8 ∷ 9 ∷ 21 ∷ []; groups = [] }) ∷ [] }
{}

/// A deal to the last level: child 1 gets a table behind a full group, which stays, and child 4 two tables
/// behind 63, whose group is written anew. Child 0 gets nothing, and keeps its group though it is not full.
pub fn last_deal_by_example()
    ensures shares { deal_shares last_trie root long_keys
        ≡ record { node = child root 1; behind = (pile 12 64 []).tables; parts = (put_of (codes "d") [] ∷ []) ∷ [] }
        ∷ record {
          node = child root 4;
          behind = (pile 77 63 []).tables;
          parts = (long_put 198 ∷ long_put 156 ∷ []) ∷ (long_put 3 ∷ []) ∷ [];
        } ∷ [] }
    ensures kept { map (kept_groups 2) (deal_shares last_trie root long_keys) ≡ 1 ∷ 0 ∷ [] }
    ensures new { map (new_groups 2) (deal_shares last_trie root long_keys) ≡ 1 ∷ 2 ∷ [] }
    ensures needs { needed 2 last_trie root long_keys ≡ 6 }
{}

/// A rewriting with deletes and old versions: it holds the newest puts alone, and needs a table and a group.
/// The pile had slack, and what it holds then has none.
pub fn rewriting_by_example()
    ensures share { rewrite_share (child root 4) old_versions
        ≡ record {
          node = child root 4;
          behind = [];
          parts = (put_of (codes "c") (3 ∷ []) ∷ put_of (codes "t") (4 ∷ []) ∷ []) ∷ [];
        } }
    ensures needs { needed 2 last_trie (child root 4) old_versions ≡ 2 }
    ensures before { has_slack 2 last_trie (child root 4) old_versions 2 ≡ true }
    ensures after { has_slack 2 last_trie (child root 4)
        (put_of (codes "c") (3 ∷ []) ∷ put_of (codes "t") (4 ∷ []) ∷ []) 2 ≡ false }
{}

/// A delete alone is slack, and so is an old version, and so is an extent too many. A rewriting of 64 tables
/// needs one group, and one of 65 tables two.
pub fn slack_by_example()
    ensures delete { has_slack 2 last_trie (child root 4) (put_of (codes "c") [] ∷ delete_of (codes "a") ∷ []) 2
        ≡ true }
    ensures version { has_slack 2 last_trie (child root 4) (put_of (codes "c") [] ∷ put_of (codes "c") [] ∷ []) 2
        ≡ true }
    ensures extents { has_slack 2 last_trie (child root 4) (put_of (codes "c") [] ∷ []) 3 ≡ true }
    ensures none { has_slack 2 last_trie (child root 4) (put_of (codes "c") [] ∷ []) 2 ≡ false }
    ensures one_group { share_extents 2 (record { node = child root 4; behind = []; parts = replicate 64 [] }) ≡ 65 }
    ensures two_groups { share_extents 2 (record { node = child root 4; behind = []; parts = replicate 65 [] }) ≡ 67 }
{}

/// A get of "a", whose home column is 57 and whose suffix is 4,205,160,444, meets the table of the root, which
/// does not cover it, and the newest of the 66 tables of its last-level pile. Two of them cover it, and one of
/// these sends it.
/// Where the key lies in table 64, one group is asked; where it lies in table 63, which covers it too, two are.
/// A pending item of the key makes it 0.
pub fn bound_by_example()
    ensures second { (o : Opened) (image : Image) → o.named.geometry ≡ two_levels
        → o.named.manifest.trie ≡ grouped_trie → o.groups ≡ []
        → holds_key (codes "a") (items_at two_levels image 100) ≡ false
        → holds_key (codes "a") (items_at two_levels image 65) ≡ false
        → holds_key (codes "a") (items_at two_levels image 64) ≡ true
        → covers (extent_in two_levels image 100 64) 57 (codes "a") ≡ false
        → covers (extent_in two_levels image 65 64) 57 (codes "a") ≡ true
        → covers (extent_in two_levels image 64 64) 57 (codes "a") ≡ true
        → sends_on (extent_in two_levels image 65 57) ≡ Some (record { target = 3; mark = 4205160444 })
        → sends_on (extent_in two_levels image 64 57) ≡ Some (record { target = 3; mark = 4205160445 })
        → read_bound o image [] (codes "a") ≡ 4 }
    ensures first { (o : Opened) (image : Image) → o.named.geometry ≡ two_levels
        → o.named.manifest.trie ≡ grouped_trie → o.groups ≡ []
        → holds_key (codes "a") (items_at two_levels image 100) ≡ false
        → holds_key (codes "a") (items_at two_levels image 65) ≡ false
        → holds_key (codes "a") (items_at two_levels image 64) ≡ false
        → holds_key (codes "a") (items_at two_levels image 63) ≡ true
        → covers (extent_in two_levels image 100 64) 57 (codes "a") ≡ false
        → covers (extent_in two_levels image 65 64) 57 (codes "a") ≡ true
        → covers (extent_in two_levels image 64 64) 57 (codes "a") ≡ true
        → covers (extent_in two_levels image 63 64) 57 (codes "a") ≡ true
        → sends_on (extent_in two_levels image 65 57) ≡ Some (record { target = 3; mark = 4205160444 })
        → sends_on (extent_in two_levels image 64 57) ≡ Some (record { target = 3; mark = 4205160445 })
        → sends_on (extent_in two_levels image 63 57) ≡ None
        → read_bound o image [] (codes "a") ≡ 6 }
    ensures pending { (o : Opened) (image : Image) → o.groups ≡ []
        → read_bound o image (delete_of (codes "a") ∷ []) (codes "a") ≡ 0 }
{}
