//! What a design is built of.
use def_text::Def;
use guide_text::Guides;
use lef_text::Lef;
use rt_base::Token;

/// What a design is built of: LEF and DEF, DEF's text and its tokens, and guides, where there are
/// any.
#[derive(Clone, Copy)]
pub struct Given<'a> {
    pub lef: &'a Lef,
    pub def: &'a Def,
    pub text: &'a [u8],
    pub tokens: &'a [Token],
    pub guides: Option<&'a Guides>,
}
