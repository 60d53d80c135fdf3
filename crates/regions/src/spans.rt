//! Spans of whole numbers, joined where they overlap or touch.
ghost use Rattle.std.specs.Prelude.{◌≡◌, ℤ, pos, ◌+ℤ◌, ◌≤ℤ◌, ◌<ℤ◌, ◌^◌, ◌↔◌, ◌∷◌, All, AllPairs, IfOk, IfSome, IfNone};
ghost use Rattle.regions.specs.Spans.{InSpans, AreFull, AreSpansOf, both};

use rt_base::{Memory, Span};
use std::alloc::Global;

/// A span joined with one that begins no lower, `None` where a number lies between them.
fn joined(span: Span, next: Span) -> Option<Span>
    requires rising { span.lo ≤ℤ next.lo }
    requires small { span.hi <ℤ pos (2 ^ 62) }
    ensures some { IfSome result (λ s. (s ≡ both span next) × (next.lo ≤ℤ (span.hi +ℤ pos 1))) }
    ensures none { IfNone result ((span.hi +ℤ pos 1) <ℤ next.lo) }
{
    if span.hi + 1 < next.lo {
        return None;
    }
    Some(Span {
        lo: span.lo,
        hi: span.hi.max(next.hi),
    })
}

/// The maximal spans of the numbers in these, which are ordered by their lower ends.
fn join(alloc: Global, first: Span, rest: &[Span]) -> Result<Vec<Span>, Memory>
    requires rising { AllPairs (λ s t. s.lo ≤ℤ t.lo) (first ∷ rest.now) }
    requires full { AreFull (first ∷ rest.now) }
    requires small { All (λ s. s.hi <ℤ pos (2 ^ 62)) (first ∷ rest.now) }
    ensures { IfOk result (λ v. AreSpansOf (InSpans (first ∷ rest.now)) v.items) }
{
    let mut maximal = Vec::new(alloc);
    let mut last = first;
    for span in rest {
        match joined(last, *span) {
            Some(longer) => {
                last = longer;
            }
            None => {
                maximal.push(last)?;
                last = *span;
            }
        }
    }
    maximal.push(last)?;
    Ok(maximal)
}

/// The maximal spans of the numbers in these, ascending. The only error is want of memory.
pub fn maximal_spans(alloc: Global, spans: Vec<Span>) -> Result<Vec<Span>, Memory>
    requires full { AreFull spans.items }
    requires small { All (λ s. s.hi <ℤ pos (2 ^ 62)) spans.items }
    ensures { IfOk result (λ v. AreSpansOf (InSpans spans.items) v.items) }
{
    let mut spans = spans;
    spans.sort_unstable_by_key(|span| span.lo);
    match spans.as_slice() {
        [first, rest @ ..] => join(alloc, *first, rest),
        [] => Ok(Vec::new(alloc)),
    }
}
