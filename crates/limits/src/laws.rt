// What is proved of the limits themselves, whoever looks for what is beyond them.
ghost use Rattle.std.specs.Prelude.{ℕ, List};
ghost use Rattle.grammar.specs.Items.{Item};
ghost use Rattle.limits.specs.Firsts.{AtMostOne};
ghost use Rattle.limits.specs.Limits.{NoneBeyond, FirstBeyond, NoneForeign, FirstForeign};

// Of each upload there is one right answer at most.
pub fn limits_stand()
    ensures beyond { (is : List Item) → AtMostOne (NoneBeyond is) (FirstBeyond is) }
    ensures foreign { (sender : List ℕ) (is : List Item) → AtMostOne (NoneForeign sender is) (FirstForeign sender is) }
{}
