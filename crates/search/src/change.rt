//! A view brought to a later state.
ghost use Rattle.std.specs.Prelude.{◌≡◌, ℕ, ◌≤ℤ◌, pos, ◌<◌, None, Some, nat_eq, if◌then◌else◌, All, filter, flat_map, length, get_or, IfOk, OnOk};
ghost use Rattle.rt_base.specs.declared.tech.Shape.{Shape as ShapeOf};
ghost use Rattle.search.specs.Changes.{AllGained, AllLost, HasGained, HasNetsOf, HasSame};
ghost use Rattle.search.specs.Tables.{entry_of};
ghost use Rattle.search.specs.Views.{HasNet, is_on, StandsFor};
ghost use Rattle.search.specs.declared.piece.Piece.{Piece as PieceOf};
ghost use Rattle.shape_grid.specs.Tiling.{IsUpright};
ghost use Rattle.standing_shapes.specs.Standing.{AreAmong};
ghost use Rattle.track_graph.specs.Conditions.{IsBlockOf, IsNetOf};
ghost use Rattle.track_graph.specs.Designs.{IsDesign};
ghost use Rattle.track_graph.specs.NetWalks.{IsWalkOf};
ghost use Rattle.track_graph.specs.States.{after, emptied, emptied_net, net_state, with_mark, with_net, with_walk};
ghost use Rattle.track_graph.specs.Walks.{walk_shapes_of};
ghost use Rattle.track_graph.specs.declared.design.Design.{Design as DesignOf};
ghost use Rattle.track_graph.specs.declared.history.State.{State as StateOf};

use crate::net_state::with_walk;
use crate::piece::Piece;
use crate::view::View;
use rt_base::{Grid, Memory, Shape, Walk};
use std::alloc::Global;
use track_graph::{Block, Design, NetState, copy_walk, walk_shapes};

/// Adds these shapes to each of the pieces on whose tile they lie.
fn add_to_all(
    alloc: Global,
    pieces: &mut Vec<Piece>,
    grid: &Grid,
    shapes: &[Shape],
) -> Result<(), Memory>
    requires { pos 1 ≤ℤ grid.now.tile }
    ensures { OnOk result (AllGained grid.now shapes.now pieces.old.items pieces.new.items) }
{
    for i in 0..pieces.len() {
        let piece = &mut pieces[i];
        piece.add(alloc, grid, shapes)?;
    }
    Ok(())
}

/// Takes these shapes out of each of the pieces on whose tile they lie.
fn take_from_all(
    alloc: Global,
    pieces: &mut Vec<Piece>,
    grid: &Grid,
    shapes: &[Shape],
) -> Result<(), Memory>
    requires tile { pos 1 ≤ℤ grid.now.tile }
    requires among { All (λ (p : PieceOf). AreAmong (filter (is_on grid.now p.no) shapes.now) p.tile) pieces.old.items }
    ensures { OnOk result (AllLost grid.now shapes.now pieces.old.items pieces.new.items) }
{
    for i in 0..pieces.len() {
        let piece = &mut pieces[i];
        piece.take(alloc, grid, shapes)?;
    }
    Ok(())
}

/// The shapes of these walks of a net, walk by walk.
fn shapes_of_walks(
    alloc: Global,
    design: &Design,
    net: u32,
    walks: &[Walk],
) -> Result<Vec<Shape>, Memory>
    requires design { IsDesign design.now }
    requires walks { All (IsWalkOf design.now net) walks.now }
    ensures { IfOk result (λ shapes. shapes.items ≡ flat_map (walk_shapes_of design.now net) walks.now) }
{
    let mut shapes = Vec::new(alloc);
    for walk in walks {
        let more = walk_shapes(alloc, design, net, walk)?;
        shapes.extend_from_slice(more.as_slice())?;
    }
    Ok(shapes)
}

/// Looks at the sides of shapes, which are in order.
pub(crate) fn look_at(shapes: &[Shape])
    ensures { All (λ (b : ShapeOf). IsUpright b.rect) shapes.now }
{
    for shape in shapes {
        let _corner = shape.rect.high();
    }
}

impl View {
    /// Adds these shapes to each tile of the view on which they lie.
    fn add_shapes(&mut self, alloc: Global, grid: &Grid, shapes: &[Shape]) -> Result<(), Memory>
        requires { pos 1 ≤ℤ grid.now.tile }
        ensures pieces { OnOk result (AllGained grid.now shapes.now self.old.pieces self.new.pieces) }
        ensures nets { self.new.nets ≡ self.old.nets }
        ensures rips { self.new.rips ≡ self.old.rips }
    {
        add_to_all(alloc, &mut self.pieces.items, grid, shapes)
    }

    /// Takes these shapes out of each tile of the view on which they lie.
    fn take_shapes(&mut self, alloc: Global, grid: &Grid, shapes: &[Shape]) -> Result<(), Memory>
        requires tile { pos 1 ≤ℤ grid.now.tile }
        requires among { All (λ (p : PieceOf). AreAmong (filter (is_on grid.now p.no) shapes.now) p.tile) self.old.pieces }
        ensures pieces { OnOk result (AllLost grid.now shapes.now self.old.pieces self.new.pieces) }
        ensures nets { self.new.nets ≡ self.old.nets }
        ensures rips { self.new.rips ≡ self.old.rips }
    {
        take_from_all(alloc, &mut self.pieces.items, grid, shapes)
    }

    /// Brings a net of the view, which was taken out, back as it stands now.
    fn put_back(&mut self, net: u32, own: NetState) -> Result<(), Memory>
        ensures pieces { self.new.pieces ≡ self.old.pieces }
        ensures nets { OnOk result ((n : ℕ) → entry_of self.new.nets n ≡ (if nat_eq net n then Some own else entry_of self.old.nets n)) }
        ensures rips { OnOk result ((n : ℕ) → entry_of self.new.rips n ≡ (if nat_eq net n then Some own.rips else entry_of self.old.rips n)) }
    {
        self.rips.set(net, own.rips)?;
        self.nets.set(net, own)
    }

    /// Takes out what stands of a net of the view.
    fn take_net(&mut self, net: u32) -> NetState
        requires { HasNet self.old net }
        ensures value { entry_of self.old.nets net ≡ Some result }
        ensures rest { (n : ℕ) → entry_of self.new.nets n ≡ (if nat_eq net n then None else entry_of self.old.nets n) }
        ensures pieces { self.new.pieces ≡ self.old.pieces }
        ensures rips { self.new.rips ≡ self.old.rips }
    {
        let Some(own) = self.nets.take(net) else {
            unreachable!()
        };
        own
    }

    /// Adds a walk to a net of the view, and joins the pin of its finish.
    fn add_walk(
        &mut self,
        alloc: Global,
        design: &Design,
        net: u32,
        walk: Walk,
    ) -> Result<(), Memory>
        requires design { IsDesign design.now }
        requires walk { IsWalkOf design.now net walk }
        requires net { HasNet self.old net }
        requires state { (s : StateOf) × StandsFor design.now s self.old }
        ensures stands { OnOk result ((s : StateOf) → StandsFor design.now s self.old → StandsFor design.now (with_walk s net walk) self.new) }
        ensures keeps { OnOk result (HasSame self.old self.new) }
    {
        let shapes = walk_shapes(alloc, design, net, &walk)?;
        look_at(shapes.as_slice());
        let own = self.take_net(net);
        self.add_shapes(alloc, &design.grid, shapes.as_slice())?;
        self.put_back(net, with_walk(own, walk)?)
    }

    /// Marks a net of the view as stuck.
    fn mark(&mut self, net: u32) -> Result<(), Memory>
        requires { HasNet self.old net }
        ensures stands { (d : DesignOf) → OnOk result ((s : StateOf) → StandsFor d s self.old → IsNetOf d net → StandsFor d (with_mark s net) self.new) }
        ensures keeps { OnOk result (HasSame self.old self.new) }
    {
        let mut own = self.take_net(net);
        own.stuck = true;
        self.put_back(net, own)
    }

    /// Takes the walks of a net of the view away, as a block does that rips the net: only its first pin
    /// stays joined, and a rip more is counted. The only error is want of memory, after which the view
    /// may hold anything.
    pub fn empty(&mut self, alloc: Global, design: &Design, net: u32) -> Result<(), Memory>
        requires design { IsDesign design.now }
        requires is_net { IsNetOf design.now net }
        requires net { HasNet self.old net }
        requires state { (s : StateOf) × StandsFor design.now s self.old }
        ensures stands { OnOk result ((s : StateOf) → StandsFor design.now s self.old → StandsFor design.now (with_net s net (emptied_net (net_state s net))) self.new) }
        ensures keeps { OnOk result (HasSame self.old self.new) }
    {
        let mut own = self.take_net(net);
        let shapes = shapes_of_walks(alloc, design, net, own.walks.as_slice())?;
        self.take_shapes(alloc, &design.grid, shapes.as_slice())?;
        own.empty();
        self.put_back(net, own)
    }

    /// Takes the walks of these nets of the view away, one net after the other.
    fn empty_all(&mut self, alloc: Global, design: &Design, nets: &[u32]) -> Result<(), Memory>
        requires design { IsDesign design.now }
        requires are_nets { All (IsNetOf design.now) nets.now }
        requires nets { All (HasNet self.old) nets.now }
        requires state { (s : StateOf) × StandsFor design.now s self.old }
        ensures stands { OnOk result ((s : StateOf) → StandsFor design.now s self.old → StandsFor design.now (emptied s nets.now) self.new) }
        ensures keeps { OnOk result (HasSame self.old self.new) }
    {
        for net in nets {
            self.empty(alloc, design, *net)?;
        }
        Ok(())
    }

    /// Goes on to the state after a block: the view stands for it wherever it stood for the state
    /// before. It has the nets that the block names; what the block adds or takes on tiles that the view
    /// lacks is left out. The only error is want of memory, after which the view may hold anything.
    pub fn push(&mut self, alloc: Global, design: &Design, block: &Block) -> Result<(), Memory>
        requires design { IsDesign design.now }
        requires block { IsBlockOf design.now block.now }
        requires nets { HasNetsOf self.old block.now }
        requires state { (s : StateOf) × StandsFor design.now s self.old }
        ensures stands { OnOk result ((s : StateOf) → StandsFor design.now s self.old → StandsFor design.now (after s block.now) self.new) }
        ensures keeps { OnOk result (HasSame self.old self.new) }
    {
        match block {
            Block::Wire { net, walk } => {
                self.add_walk(alloc, design, *net, copy_walk(alloc, walk)?)
            }
            Block::Stuck { net } => self.mark(*net),
            Block::RipFor {
                net,
                ripped,
                walk,
                ..
            } => {
                self.empty_all(alloc, design, ripped.as_slice())?;
                self.add_walk(alloc, design, *net, copy_walk(alloc, walk)?)
            }
        }
    }
}
