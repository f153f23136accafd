ghost use Rattle.std.specs.Prelude.{◌≡◌};
ghost use Rattle.lt_terms.specs.Causes.{next_count};
ghost use Rattle.lt_terms.specs.Bytes.{is_in};

// A count stands still at its type's end.
pub(super) fn risen(count: u64) -> u64
    ensures { result ≡ next_count count }
{
    count.saturating_add(1)
}

pub(super) fn is_listed(call: u64, calls: &[u64]) -> bool
    ensures { result ≡ is_in call calls.now }
{
    calls.iter().any(|listed| *listed == call)
}
