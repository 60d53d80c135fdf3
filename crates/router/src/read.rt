//! From the files of LEF, DEF and guides to the design.
ghost use Rattle.std.specs.Prelude.{◌≡◌, ◌≢◌, ◌⊎◌, ℕ, ◌≤◌, ◌≤ℤ◌, ◌^◌, pos, IfOk, IfErr, IfSome, All};
ghost use Rattle.std.specs.Option.{option_copied};
ghost use Rattle.rt_forms.specs.Clauses.{IsText};
ghost use Rattle.track_graph.specs.Metal.{Metal};
ghost use Rattle.wire_cover.specs.GoodStrokes.{IsOrdered};
ghost use Rattle.lef_text.specs.IsLef.{IsLef};
ghost use Rattle.def_text.specs.Defs.{IsDef};
ghost use Rattle.guide_text.specs.Guides.{guides as guides_form};
ghost use Rattle.guide_text.specs.IsGuides.{AreGuides};
ghost use Rattle.build.specs.Refusals.{Gives};
ghost use Rattle.router.specs.declared.refusal.Refusal.TheVariants.{Memory as OutOfMemory, Read as Unread};
ghost use Rattle.router.specs.Refusals.{lef_most, def_most, guide_most};
ghost use Rattle.router.specs.Outcomes.{AreHeld, IsSource, IsTextRefusal, SaysLef, SayBoth, IsGuideFile, AreGuidesOf, IsBuildRefusal, input_from, options_of};
ghost use Rattle.shelf.specs.Shelf.{IsHeld};
ghost use Rattle.router.specs.Outputs.{shelf_at};
ghost use Rattle.router.specs.Runs.{Cause};
ghost use Rattle.router.specs.Made.{IsRead, IsReady};
ghost use Rattle.router.specs.Words.{asked_by, guide_of, IsInRange};
ghost use Rattle.router.specs.Sources.{IsSized, AreReadable, SaysNoGuides, IsLefFileCause, IsDefFileCause, IsGuideFileCause, IsGuideCause};

use crate::refusal::{DEF_MOST, GUIDE_MOST, LEF_MOST, Refusal};
use crate::source::{Source, SourceFault, take_source};
use crate::words::Command;
use build::{build, default_tile};
use def_text::{Def, DefError, read_def_tokens, read_units_tokens};
use guide_text::{GuideError, Guides, read_guides_tokens};
use lef_text::{Lef, LefError, read_lef_tokens};
use rt_base::{LayerNo, Memory, Name, Rect, Seq, Via};
use shelf::Shelf;
use std::alloc::Global;
use track_graph::{Design, Options};

/// What LEF and DEF say.
#[derive(Debug, Drop)]
pub(crate) struct Texts {
    pub lef: Lef,
    pub def: Def,
}

/// A design, and the DEF text that it was read from.
#[derive(Debug, Drop)]
pub(crate) struct Read {
    pub text: Seq<u8>,
    pub design: Design,
}

/// What LEF says in DEF's units.
fn lef_of(alloc: Global, lef: &Source, def: &Source) -> Result<Lef, Refusal>
    requires lef { IsSized lef.now }
    requires def { IsSized def.now }
    ensures says { IfOk result (λ l. (units : ℕ) × SaysLef lef.now def.now units l) }
    ensures fits { IfOk result (λ l. IsLef l) }
    ensures refusal { IfErr result (λ e. e ≢ OutOfMemory → IsTextRefusal lef.now def.now e) }
{
    let units = read_units_tokens(alloc, def.text.as_slice(), def.tokens.as_slice())?;
    Ok(read_lef_tokens(alloc, lef.text.as_slice(), lef.tokens.as_slice(), units)?)
}

/// What both texts say.
fn texts_of(alloc: Global, lef: &Source, def: &Source) -> Result<Texts, Refusal>
    requires lef { IsSized lef.now }
    requires def { IsSized def.now }
    ensures say { IfOk result (SayBoth lef.now def.now) }
    ensures fit { IfOk result (AreReadable def.now) }
    ensures refusal { IfErr result (λ e. e ≢ OutOfMemory → IsTextRefusal lef.now def.now e) }
{
    let library = lef_of(alloc, lef, def)?;
    let chip = read_def_tokens(alloc, def.text.as_slice(), def.tokens.as_slice())?;
    Ok(Texts {
        lef: library,
        def: chip,
    })
}

/// What the words choose, and the rest by default: a tile of so many steps.
fn options_of(command: &Command<'_>, said: &Texts) -> Options
    requires range { IsInRange (asked_by command.now) }
    requires lef { IsLef said.now.lef }
    requires def { IsDef said.now.def }
    ensures options { result ≡ options_of (asked_by command.now) said.now }
    ensures least { pos 1 ≤ℤ result.tile }
    ensures most { result.tile ≤ℤ pos (2 ^ 35) }
    ensures rips { result.rips ≤ 16 }
{
    let tile = match command.tile {
        Some(side) => side,
        None => default_tile(&said.lef, &said.def),
    };
    Options {
        via: command.via,
        tile,
        rips: command.rips,
    }
}

/// The design of the texts.
fn design_of(
    alloc: Global,
    command: &Command<'_>,
    def: &Source,
    said: &Texts,
    guides: Option<&Guides>,
) -> Result<Design, Refusal>
    requires range { IsInRange (asked_by command.now) }
    requires def { IsSized def.now }
    requires said { AreReadable def.now said.now }
    requires guides { IfSome (option_copied guides) (λ g. AreGuides g.nets) }
    ensures design { IfOk result (Gives (input_from def.now said.now (option_copied guides.entry)) (options_of (asked_by command.now) said.now)) }
    ensures ready { IfOk result (IsReady def.now.text) }
    ensures refusal { IfErr result (λ e. e ≢ OutOfMemory → IsBuildRefusal (asked_by command.now) def.now said.now (option_copied guides.entry) e) }
{
    let options = options_of(command, said);
    Ok(build(
        alloc,
        &said.lef,
        &said.def,
        def.text.as_slice(),
        def.tokens.as_slice(),
        guides,
        options,
    )?)
}

/// The refusal of a file that could not be read.
fn unread(alloc: Global, name: &str) -> Refusal
    ensures { (result ≡ OutOfMemory) ⊎ (result ≡ Unread name.now) }
{
    match Name::new(alloc, name.as_bytes()) {
        Ok(name) => Refusal::Read { name },
        Err(Memory) => Refusal::Memory,
    }
}

/// Takes LEF, and cuts it into tokens.
fn take_lef<F: Shelf>(alloc: Global, files: &mut F, name: &str) -> Result<Source, Refusal>
    ensures source { IfOk result (IsSource (F.told files.old) name.now lef_most) }
    ensures refusal { IfErr result (IsLefFileCause (shelf_at F.told F.faults files.old) (shelf_at F.told F.faults files.new) name.now) }
    ensures same { F.told files.new ≡ F.told files.old }
    ensures count { F.faults files.old ≤ F.faults files.new }
    ensures stays_sure { F.sure files.old → F.sure files.new }
    ensures sure_count { F.sure files.old → IsHeld (F.told files.old) name.now → F.faults files.new ≡ F.faults files.old }
{
    match take_source(alloc, files, name, LEF_MOST) {
        Ok(source) => Ok(source),
        Err(SourceFault::Failed) => Err(unread(alloc, name)),
        Err(SourceFault::Long { read }) => Err(Refusal::LefBytes { read }),
        Err(SourceFault::Scan(fault)) => Err(Refusal::Lef(LefError::Scan(fault))),
        Err(SourceFault::Memory) => Err(Refusal::Memory),
    }
}

/// Takes DEF, and cuts it into tokens.
fn take_def<F: Shelf>(alloc: Global, files: &mut F, name: &str) -> Result<Source, Refusal>
    ensures source { IfOk result (IsSource (F.told files.old) name.now def_most) }
    ensures refusal { IfErr result (IsDefFileCause (shelf_at F.told F.faults files.old) (shelf_at F.told F.faults files.new) name.now) }
    ensures same { F.told files.new ≡ F.told files.old }
    ensures count { F.faults files.old ≤ F.faults files.new }
    ensures stays_sure { F.sure files.old → F.sure files.new }
    ensures sure_count { F.sure files.old → IsHeld (F.told files.old) name.now → F.faults files.new ≡ F.faults files.old }
{
    match take_source(alloc, files, name, DEF_MOST) {
        Ok(source) => Ok(source),
        Err(SourceFault::Failed) => Err(unread(alloc, name)),
        Err(SourceFault::Long { read }) => Err(Refusal::DefBytes { read }),
        Err(SourceFault::Scan(fault)) => Err(Refusal::Def(DefError::Scan(fault))),
        Err(SourceFault::Memory) => Err(Refusal::Memory),
    }
}

/// Takes the file of guides, and cuts it into tokens.
fn take_guide<F: Shelf>(alloc: Global, files: &mut F, name: &str) -> Result<Source, Refusal>
    ensures source { IfOk result (IsSource (F.told files.old) name.now guide_most) }
    ensures refusal { IfErr result (IsGuideFileCause (shelf_at F.told F.faults files.old) (shelf_at F.told F.faults files.new) name.now) }
    ensures same { F.told files.new ≡ F.told files.old }
    ensures count { F.faults files.old ≤ F.faults files.new }
    ensures stays_sure { F.sure files.old → F.sure files.new }
    ensures sure_count { F.sure files.old → IsHeld (F.told files.old) name.now → F.faults files.new ≡ F.faults files.old }
{
    match take_source(alloc, files, name, GUIDE_MOST) {
        Ok(source) => Ok(source),
        Err(SourceFault::Failed) => Err(unread(alloc, name)),
        Err(SourceFault::Long { read }) => Err(Refusal::GuideBytes { read }),
        Err(SourceFault::Scan(fault)) => Err(Refusal::Guide(GuideError::Scan(fault))),
        Err(SourceFault::Memory) => Err(Refusal::Memory),
    }
}

/// What the file of guides says.
fn guides_of(alloc: Global, source: &Source) -> Result<Guides, Refusal>
    requires { IsSized source.now }
    ensures says { IfOk result (IsText guides_form source.now.text source.now.tokens) }
    ensures fits { IfOk result (λ g. AreGuides g.nets) }
    ensures refusal { IfErr result (λ e. e ≢ OutOfMemory → SaysNoGuides source.now e) }
{
    Ok(read_guides_tokens(alloc, source.text.as_slice(), source.tokens.as_slice())?)
}

/// Takes the file of guides, and reads it.
fn guide_file<F: Shelf>(alloc: Global, files: &mut F, name: &str) -> Result<Guides, Refusal>
    ensures guides { IfOk result (IsGuideFile (F.told files.old) name.now) }
    ensures fits { IfOk result (λ g. AreGuides g.nets) }
    ensures refusal { IfErr result (λ e. e ≢ OutOfMemory → IsGuideFileCause (shelf_at F.told F.faults files.old) (shelf_at F.told F.faults files.new) name.now e) }
    ensures same { F.told files.new ≡ F.told files.old }
    ensures count { F.faults files.old ≤ F.faults files.new }
    ensures stays_sure { F.sure files.old → F.sure files.new }
    ensures sure_count { F.sure files.old → IsHeld (F.told files.old) name.now → F.faults files.new ≡ F.faults files.old }
{
    let source = take_guide(alloc, files, name)?;
    let guides = guides_of(alloc, &source)?;
    Ok(guides)
}

/// Takes the file of guides that the words name, and reads it; `-` is none.
fn read_guides<F: Shelf>(
    alloc: Global,
    files: &mut F,
    name: &str,
) -> Result<Option<Guides>, Refusal>
    ensures guides { IfOk result (AreGuidesOf (F.told files.old) (guide_of name.now)) }
    ensures fits { IfOk result (λ guides. IfSome guides (λ g. AreGuides g.nets)) }
    ensures refusal { IfErr result (λ e. e ≢ OutOfMemory → IsGuideCause (shelf_at F.told F.faults files.old) (shelf_at F.told F.faults files.new) (guide_of name.now) e) }
    ensures same { F.told files.new ≡ F.told files.old }
    ensures count { F.faults files.old ≤ F.faults files.new }
    ensures stays_sure { F.sure files.old → F.sure files.new }
    ensures sure_count { F.sure files.old → IfSome (guide_of name.now) (IsHeld (F.told files.old)) → F.faults files.new ≡ F.faults files.old }
{
    if name == "-" {
        return Ok(None);
    }
    let guides = guide_file(alloc, files, name)?;
    Ok(Some(guides))
}

/// Does nothing: the sides of every rectangle are in order, and a proof may cite it.
fn rects_in_order(rects: &[(LayerNo, Rect)])
    ensures { All (λ (m : Metal). IsOrdered m.1) rects.now }
{
    for rect in rects {
        let _ = rect.1.high();
    }
}

/// Does nothing: the same of the rectangles of vias.
fn vias_in_order(vias: &[Via])
    ensures { All (λ (v : Via). All (λ (m : Metal). IsOrdered m.1) v.rects) vias.now }
{
    for via in vias {
        rects_in_order(via.rects.as_slice());
    }
}

/// Takes LEF and DEF and reads them, then the guides, and builds the design.
pub(crate) fn read_design<F: Shelf>(
    alloc: Global,
    files: &mut F,
    command: &Command<'_>,
) -> Result<Read, Refusal>
    requires { IsInRange (asked_by command.now) }
    ensures design { IfOk result (λ read. IsRead (F.told files.old) (asked_by command.now) read.text read.design) }
    ensures ready { IfOk result (λ read. IsReady read.text read.design) }
    ensures refusal { IfErr result (λ e. e ≢ OutOfMemory → Cause (shelf_at F.told F.faults files.old) (shelf_at F.told F.faults files.new) (asked_by command.now) e) }
    ensures same { F.told files.new ≡ F.told files.old }
    ensures count { F.faults files.old ≤ F.faults files.new }
    ensures stays_sure { F.sure files.old → F.sure files.new }
    ensures sure_count { F.sure files.old → AreHeld (F.told files.old) (asked_by command.now) → F.faults files.new ≡ F.faults files.old }
{
    let lef = take_lef(alloc, files, command.lef.as_str())?;
    let def = take_def(alloc, files, command.def.as_str())?;
    let said = texts_of(alloc, &lef, &def)?;
    let guides = read_guides(alloc, files, command.guide.as_str())?;
    let design = design_of(alloc, command, &def, &said, guides.as_ref())?;
    vias_in_order(design.tech.vias.as_slice());
    let Source { text, tokens: _ } = def;
    Ok(Read { text, design })
}
