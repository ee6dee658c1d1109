// The order of keys: byte by byte, sender first. By hand, as that of days, so that its clauses say what it is.
ghost use Rattle.std.proofs.Common.{rules};
ghost use Rattle.std.specs.Cmp.{partial_order_from_agreeing_total};
ghost use Rattle.std.specs.Cmp.Rules.{comparing};
ghost use Rattle.std.specs.Ordering.{as_partial_cmp};
ghost use Rattle.std.specs.Prelude.{◌≡◌};
ghost use Rattle.register.specs.Keys.{key_cmp, OrderOfKeys};

use crate::key::Key;
use std::cmp::Ordering;

impl PartialOrd for Key {
    ghost partial_cmp = { as_partial_cmp key_cmp };

    ghost laws = { partial_order_from_agreeing_total key_cmp
        (Prim.search (comparing, rules)) (Prim.search (comparing, rules))
        (Prim.search (comparing, rules)) };

    fn partial_cmp(&self, other: &Key) -> Option<Ordering>
        ensures { result ≡ as_partial_cmp key_cmp self.now other.now }
    {
        Some(self.cmp(other))
    }
}

impl Ord for Key {
    ghost cmp = { key_cmp };

    ghost total = { Prim.search (comparing, rules) };

    ghost matches_partial_cmp = { Prim.search (comparing, rules) };

    ghost matches_eq = { Prim.search (comparing, rules) };

    #[tactic(auto, using(crate::proofs::Sameness::order_of_keys))]
    fn cmp(&self, other: &Key) -> Ordering
        ensures value { result ≡ key_cmp self.now other.now }
        ensures law { OrderOfKeys key_cmp }
    {
        self.sender
            .cmp(&other.sender)
            .then(self.identifier.cmp(&other.identifier))
    }
}
