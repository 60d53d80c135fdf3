//! The guide of a net, and what lies in it.
ghost use Rattle.std.specs.Prelude.{◌≡◌, ◌⊎◌, ◌↔◌, ◌<ℤ◌, ◌+ℤ◌, pos, IsTrue, IfSome, IfNone};
ghost use Rattle.track_graph.specs.Edges.{EdgeInGuide};
ghost use Rattle.track_graph.specs.Guide.{InGuide, RunsInGuide};
ghost use Rattle.rt_base.specs.declared.walk.EdgeKind.TheVariants.{Along};
ghost use Rattle.plain_route.specs.Ground.{Reaches, CoversAll};

use rt_base::{Edge, EdgeKind, Point, Rect, Vertex};

/// The upper right corner of a box of the level that holds the point, `None` where none does.
fn reach(guide: &[(u8, Rect)], level: u8, p: Point) -> Option<Point>
    ensures some { IfSome result (Reaches guide.now level p) }
    ensures none { IfNone result (InGuide guide.now level p → ⊥) }
{
    for b in guide {
        if b.0 == level && b.1.holds(p) {
            return Some(b.1.high());
        }
    }
    None
}

/// Whether a box of the level holds the point.
pub fn is_in_guide(guide: &[(u8, Rect)], level: u8, p: Point) -> bool
    ensures { IsTrue result ↔ InGuide guide.now level p }
{
    match reach(guide, level, p) {
        Some(_) => true,
        None => false,
    }
}

/// The point right past another, in the row of the end.
fn right_of(past: Point, end: Point) -> Point
    requires { past.x <ℤ end.x }
    ensures { result ≡ record { x = past.x +ℤ pos 1; y = end.y } }
{
    Point {
        x: past.x + 1,
        y: end.y,
    }
}

/// The point right above another, in the column of the end.
fn above(past: Point, end: Point) -> Point
    requires { past.y <ℤ end.y }
    ensures { result ≡ record { x = end.x; y = past.y +ℤ pos 1 } }
{
    Point {
        x: end.x,
        y: past.y + 1,
    }
}

/// Whether each point of a segment that runs in x lies in a box of the level.
fn covers_row(guide: &[(u8, Rect)], level: u8, segment: Rect) -> bool
    requires { segment.yl ≡ segment.yh }
    ensures { IsTrue result ↔ CoversAll guide.now level segment }
{
    let end = segment.high();
    let mut at = segment.low();
    while let Some(far) = reach(guide, level, at) {
        if far.x >= end.x {
            return true;
        }
        at = right_of(far, end);
    }
    false
}

/// Whether each point of a segment that runs in y lies in a box of the level.
fn covers_column(guide: &[(u8, Rect)], level: u8, segment: Rect) -> bool
    requires { segment.xl ≡ segment.xh }
    ensures { IsTrue result ↔ CoversAll guide.now level segment }
{
    let end = segment.high();
    let mut at = segment.low();
    while let Some(far) = reach(guide, level, at) {
        if far.y >= end.y {
            return true;
        }
        at = above(far, end);
    }
    false
}

/// Whether each whole-number point from p to q, which stand in one row or column, lies in a box of
/// the level.
fn runs_in_guide(guide: &[(u8, Rect)], level: u8, p: Point, q: Point) -> bool
    requires { (p.x ≡ q.x) ⊎ (p.y ≡ q.y) }
    ensures { IsTrue result ↔ RunsInGuide guide.now level p q }
{
    let segment = Rect::hull(p, q);
    if p.y == q.y {
        return covers_row(guide, level, segment);
    }
    covers_column(guide, level, segment)
}

/// Whether an edge is inside the guide.
pub fn is_edge_in_guide(guide: &[(u8, Rect)], v: Vertex, e: &Edge) -> bool
    requires { e.now.kind ≡ Along → (v.point.x ≡ e.now.to.point.x) ⊎ (v.point.y ≡ e.now.to.point.y) }
    ensures { IsTrue result ↔ EdgeInGuide guide.now v e.now }
{
    match e.kind {
        EdgeKind::Along => runs_in_guide(guide, v.level, v.point, e.to.point),
        EdgeKind::Via(_) => {
            if !is_in_guide(guide, v.level, v.point) {
                return false;
            }
            is_in_guide(guide, e.to.level, e.to.point)
        }
    }
}
