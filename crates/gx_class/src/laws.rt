//! Laws: what the split of intervals does.
ghost use Rattle.std.specs.Prelude.{List};
ghost use Rattle.gx_geom.specs.Spans.{Span, span_cmp};
ghost use Rattle.gx_class.specs.Halving.{halves_by_order, IsHalvedInOrder};

/// Intervals are divided in halves by order: the first group has half of them, and the odd one; and each of the first
/// group comes before each of the second, by its ends and then by its slot.
pub fn intervals_are_halved_in_order()
    ensures { (keys : List Span) → IsHalvedInOrder span_cmp keys (halves_by_order span_cmp keys) }
{}
