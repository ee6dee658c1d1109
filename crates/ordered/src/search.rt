// Where a key stands among rows that rise by key, or where it would go: by halving.
ghost use Rattle.std.specs.Prelude.{◌≡◌, ◌<◌, ◌≤◌, length, MatchResult};
ghost use Rattle.std.specs.List.Sorted.{IsStrictlySortedBy};
ghost use Rattle.std.specs.Map.{keys_of};
ghost use Rattle.std.specs.declared.cmp.Ordering.TheVariants.{Less, Equal};
ghost use Rattle.ordered.specs.Searches.{EndsAt};

use std::cmp::Ordering;

pub(crate) fn find<K: Ord, V>(rows: &[(K, V)], key: &K) -> Result<usize, usize>
    requires { IsStrictlySortedBy K.cmp (keys_of rows.now) }
    ensures within { MatchResult result (λ i. i < length rows.now) (λ i. i ≤ length rows.now) }
    ensures ends { MatchResult result (λ i. EndsAt K.cmp key.now rows.now i Equal) (λ i. EndsAt K.cmp key.now rows.now i Less) }
{
    let mut low = 0;
    let mut high = rows.len();
    while low < high {
        let middle = low + (high - low) / 2;
        match key.cmp(&rows[middle].0) {
            Ordering::Less => high = middle,
            Ordering::Equal => return Ok(middle),
            Ordering::Greater => low = middle + 1,
        }
    }
    Err(low)
}
