//! The design.
ghost use Rattle.std.specs.Prelude.{◌≡◌, ◌≢◌, ◌≤◌, ◌≤ℤ◌, ◌^◌, pos, length, IfOk, IfErr, IfSome, MatchResult, None, Some};
ghost use Rattle.std.specs.List.{AllZip};
ghost use Rattle.std.specs.Option.{option_copied};
ghost use Rattle.rt_base.specs.Tokens.{AllInside};
ghost use Rattle.track_graph.specs.Designs.{IsDesign};
ghost use Rattle.lef_text.specs.IsLef.{IsLef};
ghost use Rattle.def_text.specs.Defs.{IsDef, AreRanges};
ghost use Rattle.guide_text.specs.IsGuides.{AreGuides};
ghost use Rattle.track_graph.specs.declared.design.Design.{Design as OfDesign};
ghost use Rattle.build.specs.declared.error.BuildError.{BuildError as OfError};
ghost use Rattle.build.specs.Built.{fixed_of, grid_of, skipped_of};
ghost use Rattle.build.specs.Faults.{name_fault};
ghost use Rattle.build.specs.Findings.{Finds};
ghost use Rattle.build.specs.Ground.{IsGround, IsBuiltNet, input_on, system_on};
ghost use Rattle.build.specs.Inputs.{IsInput, input_of, input_by};
ghost use Rattle.build.specs.Known.{IsKnown};
ghost use Rattle.build.specs.Refusals.{Gives, Refuses};
ghost use Rattle.build.specs.Rests.{AreSized, IsRest};
ghost use Rattle.build.specs.Standing.{AreChosen, AreDrawn, IsAsked, Stands};
ghost use Rattle.build.specs.declared.error.BuildError.TheVariants.{Memory as OutOfMemory};

use crate::checks::check_names;
use crate::copies::copy_counts;
use crate::entry_counts::count_all;
use crate::error::BuildError;
use crate::given::Given;
use crate::guide_index::guide_index;
use crate::level_tracks::tracks;
use crate::limits::{check_counts, check_sizes};
use crate::lookup::{Lookup, look_ups};
use crate::nets::{Ground, nets};
use crate::shapes::fixed_shapes;
use crate::technology::technology;
use def_text::Def;
use guide_text::Guides;
use lef_text::Lef;
use net_guides::NetGuides;
use rt_base::{Grid, Memory, Name, Seq, Shape, Tech, Token};
use std::alloc::Global;
use track_graph::{Design, Net, Options, Tracks};

/// The counts of statements that are read and not used.
fn skipped(alloc: Global, lef: &Lef, def: &Def) -> Result<Seq<(Name, u32)>, Memory>
    ensures { IfOk result (λ s. s ≡ skipped_of lef.now def.now) }
{
    let mut counts = copy_counts(alloc, lef.skipped.as_slice())?;
    counts.push((Name::new(alloc, b"NETS")?, def.skipped))?;
    Ok(counts)
}

/// The grid of tiles.
fn grid(def: &Def, options: Options) -> Grid
    requires { AreChosen options }
    ensures { result ≡ grid_of def.now options }
{
    Grid {
        die: def.die,
        tile: options.tile,
    }
}

/// The nets, where the sizes of the design pass.
fn sized_nets(
    alloc: Global,
    on: &Ground,
    options: Options,
    shapes: &[Shape],
) -> Result<Seq<Net>, BuildError>
    requires ground { IsGround on.now }
    requires options { AreChosen options }
    requires shapes { shapes.now ≡ fixed_of (input_on on.now) }
    ensures nets { IfOk result (AllZip (IsBuiltNet (input_on on.now) (system_on on.now)) (input_on on.now).def.nets) }
    ensures sizes { MatchResult result (λ nets. AreSized (input_on on.now) options (system_on on.now) None) (λ e. e ≢ OutOfMemory → AreSized (input_on on.now) options (system_on on.now) (Some e)) }
{
    let entries = count_all(alloc, on)?;
    check_sizes(&grid(on.given.def, options), entries, shapes)?;
    Ok(nets(alloc, on, on.given.def.nets.as_slice())?)
}

/// What a design has beside its technology and its shapes: the tracks, the nets, and the counts of
/// statements that are read and not used.
#[derive(Drop)]
pub struct Rest {
    pub tracks: Tracks,
    pub nets: Seq<Net>,
    pub skipped: Seq<(Name, u32)>,
}

/// The rest of the design, where names and counts pass.
fn rest_of_design(
    alloc: Global,
    given: &Given,
    options: Options,
    known: &Lookup,
    index: &NetGuides,
    tech: &Tech,
    shapes: &[Shape],
) -> Result<Rest, BuildError>
    requires stands { Stands (input_by given.now) options known.now index.now tech.now }
    requires shapes { shapes.now ≡ fixed_of (input_by given.now) }
    ensures rest { IfOk result (IsRest (input_by given.now) options tech.now) }
    ensures refusal { IfErr result (λ e. e ≢ OutOfMemory → Refuses (input_by given.now) options e) }
{
    let tracks = tracks(alloc, tech, given.def)?;
    let on = Ground {
        given,
        known,
        guides: index,
        tech,
        tracks: &tracks,
    };
    let nets = sized_nets(alloc, &on, options, shapes)?;
    let skipped = skipped(alloc, given.lef, given.def)?;
    Ok(Rest {
        tracks,
        nets,
        skipped,
    })
}

/// The design, where names and counts pass.
fn assembled(
    alloc: Global,
    given: &Given,
    options: Options,
    known: &Lookup,
    index: &NetGuides,
    tech: Tech,
    shapes: Seq<Shape>,
) -> Result<Design, BuildError>
    requires stands { Stands (input_by given.now) options known.now index.now tech }
    requires shapes { shapes ≡ fixed_of (input_by given.now) }
    ensures design { IfOk result (Gives (input_by given.now) options) }
    ensures refusal { IfErr result (λ e. e ≢ OutOfMemory → Refuses (input_by given.now) options e) }
    ensures fits { IfOk result IsDesign }
{
    let shown = shapes.as_slice();
    let rest = rest_of_design(alloc, given, options, known, index, &tech, shown)?;
    Ok(Design {
        tech,
        tracks: rest.tracks,
        grid: grid(given.def, options),
        nets: rest.nets,
        fixed: shapes,
        options,
        skipped: rest.skipped,
    })
}

/// The technology and the shapes of the input, where units, names and wiring pass.
fn drawn(alloc: Global, given: &Given, known: &Lookup) -> Result<(Tech, Seq<Shape>), BuildError>
    requires { IsKnown given.now known.now }
    ensures { Finds (AreDrawn (input_by given.now)) result (name_fault (input_by given.now)) }
{
    let (vias, metal) = check_names(alloc, given, known)?;
    let tech = technology(alloc, given.lef, vias.as_slice())?;
    let shapes = fixed_shapes(alloc, given, known, &metal)?;
    Ok((tech, Seq::from_vec(shapes)))
}

/// The design, or the first reason why there is none, by what is found by name.
fn designed(
    alloc: Global,
    given: &Given,
    options: Options,
    known: &Lookup,
    index: &NetGuides,
) -> Result<Design, BuildError>
    requires { IsAsked (input_by given.now) options known.now index.now }
    ensures design { IfOk result (Gives (input_by given.now) options) }
    ensures refusal { IfErr result (λ e. e ≢ OutOfMemory → Refuses (input_by given.now) options e) }
    ensures fits { IfOk result IsDesign }
{
    let (tech, shapes) = drawn(alloc, given, known)?;
    check_counts(given, &tech, shapes.as_slice())?;
    assembled(alloc, given, options, known, index, tech, shapes)
}

/// The same, with the guides by name yet to be found.
fn guided(
    alloc: Global,
    given: &Given,
    options: Options,
    known: &Lookup,
) -> Result<Design, BuildError>
    requires known { IsKnown given.now known.now }
    requires options { AreChosen options }
    ensures design { IfOk result (Gives (input_by given.now) options) }
    ensures refusal { IfErr result (λ e. e ≢ OutOfMemory → Refuses (input_by given.now) options e) }
    ensures fits { IfOk result IsDesign }
{
    let index = guide_index(alloc, given.lef.layers.as_slice(), given.guides)?;
    designed(alloc, given, options, known, &index)
}

/// The design, or the first reason why there is none.
fn looked_up(alloc: Global, given: &Given, options: Options) -> Result<Design, BuildError>
    requires input { IsInput (input_by given.now) }
    requires options { AreChosen options }
    ensures design { IfOk result (Gives (input_by given.now) options) }
    ensures refusal { IfErr result (λ e. e ≢ OutOfMemory → Refuses (input_by given.now) options e) }
    ensures fits { IfOk result IsDesign }
{
    match look_ups(alloc, given.lef, given.def) {
        Ok(known) => guided(alloc, given, options, &known),
        Err(Memory) => Err(BuildError::Memory),
    }
}

/// The design that LEF and DEF describe, LEF read in DEF's units, under what the user chose; or the
/// first reason why there is none: units, then names and wiring section by section, each in file
/// order, then layers without tracks, then the guides' entries in file order, and then counts above
/// their most. `text` is DEF's, with its tokens. Wiring means LEF's vias and DEF's, of which the last
/// one of a name; both are the design's, and routing uses LEF's alone. How many there are is tested
/// before DEF's are read. Without guides each net's guide is the die on every level.
/// Nets, pins and connections keep their order, and each net its name and the place of its closing
/// `;`. Fixed shapes stand in the order of components, pins, blockages, special nets and nets.
pub fn build(
    alloc: Global,
    lef: &Lef,
    def: &Def,
    text: &[u8],
    tokens: &[Token],
    guides: Option<&Guides>,
    options: Options,
) -> Result<Design, BuildError>
    requires lef { IsLef lef.now }
    requires def { IsDef def.now }
    requires tokens { AllInside (length text.now) tokens.now }
    requires ranges { AreRanges (length tokens.now) def.now }
    requires guides { IfSome (option_copied guides) (λ g. AreGuides g.nets) }
    requires via { options.via ≤ 2 ^ 20 }
    requires least_tile { pos 1 ≤ℤ options.tile }
    requires most_tile { options.tile ≤ℤ pos (2 ^ 35) }
    requires rips { options.rips ≤ 16 }

    // A design is the one that the texts give, and where they give one it is answered.
    ensures design { IfOk result (Gives (input_of lef.now def.now text.now tokens.now (option_copied guides.entry)) options) }
    ensures only { (d : OfDesign) → Gives (input_of lef.now def.now text.now tokens.now (option_copied guides.entry)) options d → IfErr result (λ e. e ≡ OutOfMemory) }

    // A refusal is the first reason, and where there is one it is answered.
    ensures refusal { IfErr result (λ e. e ≢ OutOfMemory → Refuses (input_of lef.now def.now text.now tokens.now (option_copied guides.entry)) options e) }
    ensures refuses { (e : OfError) → Refuses (input_of lef.now def.now text.now tokens.now (option_copied guides.entry)) options e → MatchResult result (λ d. ⊥) (λ f. f ≢ OutOfMemory → f ≡ e) }

    ensures fits { IfOk result IsDesign }
{
    let given = Given {
        lef,
        def,
        text,
        tokens,
        guides,
    };
    looked_up(alloc, &given, options)
}
