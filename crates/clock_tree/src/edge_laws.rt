//! What is true of every relation of two edges, whoever found it.
ghost use Rattle.timing_model.specs.Relation.{IsEdgeOf, IsRelation};
ghost use Rattle.timing_types.specs.declared.edge_times.Relation.{Relation};
ghost use Rattle.std.specs.Int.{IsGcd};
ghost use Rattle.std.specs.Prelude.{◌≡◌, ℕ, ℤ, pos};

/// Two edges have one relation: the rule leaves no choice.
pub fn relation_is_unique()
    ensures { (a p b q : ℤ) (r s : Relation) → IsRelation a p b q r → IsRelation a p b q s → r ≡ s }
{}

/// An edge and itself are a whole period apart for setup, and not at all for hold.
pub fn relation_of_equal_edges()
    ensures { (a p : ℤ) → IsEdgeOf a p → IsRelation a p a p (record { setup = p; hold = pos 0 }) }
{}

/// Edges at one time are the greatest common divisor of their periods apart for setup, and not at
/// all for hold.
pub fn relation_of_edges_at_one_time()
    ensures { (a : ℤ) (p q g : ℕ) → IsEdgeOf a (pos p) → IsEdgeOf a (pos q) → IsGcd p q g
        → IsRelation a (pos p) a (pos q) (record { setup = pos g; hold = pos 0 }) }
{}
