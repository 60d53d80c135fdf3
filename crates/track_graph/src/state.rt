//! States: what stands of each net after the blocks of a journal.
ghost use Rattle.std.specs.Prelude.{◌≡◌, ℕ, ◌<◌, ◌↔◌, ◌++◌, ◌∷◌, [], IsTrue, length, All, OnOk, OnErr, IfOk, IfSome};
ghost use Rattle.track_graph.specs.Conditions.{IsBlockOf, IsJournalOf, IsStateOf};
ghost use Rattle.track_graph.specs.Histories.{all_joined, IsFinished, IsHistory};
ghost use Rattle.track_graph.specs.Entries.{pin_of};
ghost use Rattle.track_graph.specs.Readings.{may_rip};
ghost use Rattle.track_graph.specs.Rules.{BreaksNoRule};
ghost use Rattle.track_graph.specs.States.{after, emptied, emptied_net, first_joined, first_state, fresh, join_pin, keep_first, net_state, state_of, with_mark, with_net, with_walk};

use crate::design::{Design, Net, NetKind, Pin};
use crate::history::{Block, NetState, State};
use rt_base::{EntryKind, Memory, Seq, Walk};
use std::alloc::Global;

/// A copy of a walk.
pub fn copy_walk(alloc: Global, walk: &Walk) -> Result<Walk, Memory>
    ensures { IfOk result (λ w. w ≡ walk.now) }
{
    let edges = Vec::from_slice(alloc, walk.edges.as_slice())?;
    Ok(Walk {
        start: walk.start,
        edges: Seq::from_vec(edges),
        finish: walk.finish,
    })
}

/// The pin that an entry is of.
fn pin_of(kind: EntryKind) -> Option<u32>
    ensures { result ≡ pin_of kind }
{
    match kind {
        EntryKind::Pin { pin } => Some(pin),
        EntryKind::Stub { pin, .. } => Some(pin),
        EntryKind::Wire => None,
    }
}

/// Of these pins the first one is joined.
fn first_joined(alloc: Global, pins: &[Pin]) -> Result<Vec<bool>, Memory>
    ensures { IfOk result (λ joined. joined.items ≡ first_joined pins.now) }
{
    let mut joined = vec![in alloc; false; pins.len()]?;
    if !joined.is_empty() {
        joined[0] = true;
    }
    Ok(joined)
}

/// Of these pins only the first one stays joined.
fn keep_first(joined: &mut [bool])
    ensures { joined.new ≡ keep_first joined.old }
{
    joined.fill(false);
    if !joined.is_empty() {
        joined[0] = true;
    }
}

impl NetState {
    /// Whether all pins are joined. Takes no memory.
    pub fn all_joined(&self) -> bool
        ensures { result ≡ all_joined self.now }
    {
        self.joined.as_slice().iter().all(|b| *b)
    }

    /// What stands of a net at first.
    fn fresh(alloc: Global, net: &Net) -> Result<NetState, Memory>
        ensures { IfOk result (λ s. s ≡ fresh net.now) }
    {
        let joined = first_joined(alloc, net.pins.as_slice())?;
        Ok(NetState {
            walks: Seq::new(alloc),
            joined: Seq::from_vec(joined),
            rips: 0,
            stuck: false,
        })
    }

    /// Joins the pin of an entry. Takes no memory.
    pub fn join(&mut self, kind: EntryKind)
        requires { IfSome (pin_of kind) (λ pin. pin < length self.old.joined) }
        ensures { self.new ≡ record self.old { joined = join_pin kind self.old.joined } }
    {
        if let Some(pin) = pin_of(kind) {
            self.joined.items[pin as usize] = true;
        }
    }

    /// Takes away what stands, but that the first pin is joined, and counts a rip. Takes no memory.
    pub fn empty(&mut self)
        ensures { self.new ≡ emptied_net self.old }
    {
        self.walks.items.clear();
        keep_first(&mut self.joined.items);
        self.rips = self.rips.saturating_add(1);
        self.stuck = false;
    }
}

/// Whether net `other`, of which this stands, may be ripped for a net: it is another net, and was
/// ripped less often than the user allows. Takes no memory.
pub fn may_rip(design: &Design, net: u32, other: u32, standing: &NetState) -> bool
    ensures { result ≡ may_rip design.now net other standing.now }
{
    other != net && standing.rips < design.options.rips
}

/// Whether each routable net has all its pins joined or is marked stuck. Takes no memory.
pub fn finished(design: &Design, state: &State) -> bool
    requires { IsStateOf design.now state.now }
    ensures { IsTrue result ↔ IsFinished design.now state.now }
{
    let nets = design.nets.as_slice();
    let states = state.nets.items.as_slice();
    for (i, net) in nets.iter().enumerate() {
        if net.kind == NetKind::Routable && !states[i].all_joined() && !states[i].stuck {
            return false;
        }
    }
    true
}

/// The state after a list of blocks. After the blocks of a history no wire breaks a rule of spacing.
pub fn fold(alloc: Global, design: &Design, blocks: &[Block]) -> Result<State, Memory>
    requires { IsJournalOf design.now blocks.now }
    ensures after { IfOk result (λ s. s ≡ state_of design.now blocks.now) }
    ensures of_design { IfOk result (λ s. IsStateOf design.now s) }
    ensures rules { IfOk result (λ s. IsHistory design.now blocks.now → BreaksNoRule design.now s) }
{
    let mut state = State::first(alloc, design)?;
    for block in blocks {
        state.push(design, block)?;
    }
    Ok(state)
}

impl State {
    /// The state before any block: of each net the first pin is joined, and nothing else stands.
    pub fn first(alloc: Global, design: &Design) -> Result<State, Memory>
        ensures first { IfOk result (λ s. s ≡ first_state design.now) }
        ensures of_design { IfOk result (λ s. IsStateOf design.now s) }
    {
        let mut nets = Vec::new(alloc);
        for net in design.nets.as_slice() {
            nets.push(NetState::fresh(alloc, net)?)?;
        }
        Ok(State {
            nets: Seq::from_vec(nets),
        })
    }

    /// Goes on to the state after a block. Where memory runs out, the state stays.
    pub fn push(&mut self, design: &Design, block: &Block) -> Result<(), Memory>
        requires state { IsStateOf design.now self.old }
        requires block { IsBlockOf design.now block.now }
        ensures ok { OnOk result (self.new ≡ after self.old block.now) }
        ensures err { OnErr result (self.new ≡ self.old) }
        ensures of_design { IsStateOf design.now self.new }
    {
        let alloc = *self.nets.items.allocator();
        match block {
            Block::Wire { net, walk } => self.add_walk(*net, copy_walk(alloc, walk)?),
            Block::Stuck { net } => {
                self.mark(*net);
                Ok(())
            }
            Block::RipFor {
                net,
                ripped,
                walk,
                ..
            } => self.rip_for(*net, ripped.as_slice(), copy_walk(alloc, walk)?),
        }
    }

    /// Marks a net as stuck.
    fn mark(&mut self, net: u32)
        requires { net < length self.old.nets }
        ensures { self.new ≡ with_mark self.old net }
    {
        self.nets.items[net as usize].stuck = true;
    }

    /// Adds a walk to a net, and joins the pin of its finish.
    fn add_walk(&mut self, net: u32, walk: Walk) -> Result<(), Memory>
        requires net { net < length self.old.nets }
        requires pin { IfSome (pin_of walk.finish.kind) (λ pin. pin < length (net_state self.old net).joined) }
        ensures ok { OnOk result (self.new ≡ with_walk self.old net walk) }
        ensures err { OnErr result (self.new ≡ self.old) }
    {
        let kind = walk.finish.kind;
        let state = &mut self.nets.items[net as usize];
        state.walks.items.push(walk)?;
        state.join(kind);
        Ok(())
    }

    /// Empties a net.
    fn empty_net(&mut self, net: u32)
        requires { net < length self.old.nets }
        ensures { self.new ≡ with_net self.old net (emptied_net (net_state self.old net)) }
    {
        self.nets.items[net as usize].empty();
    }

    /// Empties these nets.
    fn empty(&mut self, ripped: &[u32])
        requires { All (λ n. n < length self.old.nets) ripped.now }
        ensures { self.new ≡ emptied self.old ripped.now }
    {
        for net in ripped {
            self.empty_net(*net);
        }
    }

    /// Gives a net these walks alone, and joins the pin of an entry.
    fn replace_walks(&mut self, net: u32, walks: Seq<Walk>, kind: EntryKind)
        requires net { net < length self.old.nets }
        requires pin { IfSome (pin_of kind) (λ pin. pin < length (net_state self.old net).joined) }
        ensures { let old = net_state self.old net in
            self.new ≡ with_net self.old net (record old { walks = walks; joined = join_pin kind old.joined }) }
    {
        let state = &mut self.nets.items[net as usize];
        state.walks = walks;
        state.join(kind);
    }

    /// Empties these nets and then adds a walk to a net, which may be one of them.
    fn rip_for(&mut self, net: u32, ripped: &[u32], walk: Walk) -> Result<(), Memory>
        requires net { net < length self.old.nets }
        requires ripped { All (λ n. n < length self.old.nets) ripped.now }
        requires pin { IfSome (pin_of walk.finish.kind) (λ pin. pin < length (net_state self.old net).joined) }
        ensures ok { OnOk result (self.new ≡ with_walk (emptied self.old ripped.now) net walk) }
        ensures err { OnErr result (self.new ≡ self.old) }
    {
        if !ripped.contains(&net) {
            self.add_walk(net, walk)?;
            self.empty(ripped);
            return Ok(());
        }
        let kind = walk.finish.kind;
        let mut walks = Seq::new(*self.nets.items.allocator());
        walks.push(walk)?;
        self.empty(ripped);
        self.replace_walks(net, walks, kind);
        Ok(())
    }
}
