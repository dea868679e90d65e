//! Each function is a theorem over the definitions in `specs`, and does nothing.
ghost use Rattle.std.specs.Prelude.{ℕ, List, Option};
ghost use Rattle.smc_query.specs.Trees.{CallTree, CondTree, ExprTree, ItemTree, KeyTree, PathTree};
ghost use Rattle.smc_parse.specs.Once.{Once, PassedOnce};

/// What is read of the tokens is one thing: one tree up to one place, or one fault, unless memory was wanted. So it is for
/// the parts that are listed; paths, sort keys one by one and the two halves of a query are not among them.
pub fn read_once()
    ensures expr { Once ExprTree }
    ensures cond { Once CondTree }
    ensures call { Once CallTree }
    ensures item { Once ItemTree }
    ensures items { Once (List ItemTree) }
    ensures label { Once (Option (List ℕ)) }
    ensures filter { Once (Option CondTree) }
    ensures by { Once (List PathTree) }
    ensures sort { Once (List KeyTree) }
    ensures first { Once (Option ℕ) }
    ensures name { Once (List ℕ) }
    ensures whole { Once ℕ }
    ensures mark { PassedOnce }
{}
