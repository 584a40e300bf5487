//! Laws of the findings of a test.
ghost use Rattle.std.specs.Prelude.{ℕ};
ghost use Rattle.gx_node.specs.Legal.{Legal};
ghost use Rattle.gx_node.specs.Trees.{Tree, Rules};
ghost use Rattle.gx_legality.specs.Breaks.{Breaks};
ghost use Rattle.gx_legality.specs.declared.fault.Rule.{Rule};

/// A tree that breaks a rule isn't legal, whichever rule it is and whichever page is named. So if pages are steady, a
/// tree is refused as broken only if it isn't legal.
pub fn what_breaks_a_rule_is_not_legal<K>()
    ensures { (r : Rules K) (t : Tree K) (p : ℕ) (rule : Rule) → Breaks r t p rule → ¬ Legal r t }
{}
