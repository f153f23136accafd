ghost use Rattle.std.specs.Prelude.{◌≡◌};
ghost use Rattle.lt_terms.specs.Causes.{next_count};

/// One more; a count stands still at its type's end.
pub(super) fn risen(count: u64) -> u64
    ensures { result ≡ next_count count }
{
    count.saturating_add(1)
}
