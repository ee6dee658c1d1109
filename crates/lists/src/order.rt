// The order of codes: by list, and in a list as words stand in a dictionary. By hand, as that of days, so that its clauses say
// what it is.
ghost use Rattle.std.proofs.Common.{rules};
ghost use Rattle.std.specs.Cmp.{partial_order_from_agreeing_total};
ghost use Rattle.std.specs.Cmp.Rules.{comparing};
ghost use Rattle.std.specs.Ordering.{as_partial_cmp, eq_by_cmp};
ghost use Rattle.std.specs.Prelude.{◌≡◌};
ghost use Rattle.lists.specs.Codes.{code_cmp};
ghost use Rattle.lists.specs.Order.{listed_cmp, DictionaryOrder};

use crate::listed_code::ListedCode;
use std::cmp::Ordering;

impl PartialEq for ListedCode {
    ghost eq = { eq_by_cmp code_cmp };

    ghost laws = { Prim.search (comparing, rules) };

    fn eq(&self, other: &ListedCode) -> bool {
        self.cmp(other).is_eq()
    }
}

impl Eq for ListedCode {
    ghost laws = { Prim.search (comparing, rules) };
}

impl PartialOrd for ListedCode {
    ghost partial_cmp = { as_partial_cmp code_cmp };

    ghost laws = { partial_order_from_agreeing_total code_cmp
        (Prim.search (comparing, rules)) (Prim.search (comparing, rules))
        (Prim.search (comparing, rules)) };

    fn partial_cmp(&self, other: &ListedCode) -> Option<Ordering>
        ensures { result ≡ as_partial_cmp code_cmp self.now other.now }
    {
        Some(self.cmp(other))
    }
}

impl Ord for ListedCode {
    ghost cmp = { code_cmp };

    ghost total = { Prim.search (comparing, rules) };

    ghost matches_partial_cmp = { Prim.search (comparing, rules) };

    ghost matches_eq = { Prim.search (comparing, rules) };

    #[tactic(auto, using(crate::proofs::Wording::dictionary_order))]
    fn cmp(&self, other: &ListedCode) -> Ordering
        ensures value { result ≡ code_cmp self.now other.now }
        ensures law { DictionaryOrder listed_cmp }
    {
        self.list
            .cmp(&other.list)
            .then(self.code.as_bytes().cmp(other.code.as_bytes()))
    }
}
