// What is proved of the grammar itself, whatever reads it.
ghost use Rattle.grammar.specs.Theorems.{GoesOn, OneState, EachEnds, TestIsExact};

// Behind bytes that lead to a state a lawful upload goes on as from that state; bytes lead to one state at most; every
// state has an ending; and a test that computes tells the lawful uploads.
pub fn grammar_stands()
    ensures goes { GoesOn }
    ensures state { OneState }
    ensures ends { EachEnds }
    ensures test { TestIsExact }
{}
