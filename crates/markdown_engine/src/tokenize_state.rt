//! What states keep for one another.
use engine_events::Content;
use engine_events::event::Name;
use engine_states::state::Name as StateName;
use engine_states::{ContainerState, Label, LabelStart};
use std::alloc::{AllocError, Allocator};

/// What states keep for one another; a failed attempt leaves what was written here.
#[derive(Drop)]
pub struct TokenizeState<A: Allocator> {
    /// The containers that are open, the outermost first.
    pub document_container_stack: Vec<ContainerState, A>,
    /// The labels of the definitions that were read, as they are compared.
    pub definitions: Vec<String<A>, A>,
    /// The labels of the footnote definitions that were read, as they are compared.
    pub gfm_footnote_definitions: Vec<String<A>, A>,
    /// The label starts that may find their ends.
    pub label_starts: Vec<LabelStart, A>,
    /// The label starts that found none.
    pub label_starts_loose: Vec<LabelStart, A>,
    /// The labels that were found.
    pub labels: Vec<Label, A>,
    /// Whether what is read next is joined to the chunk before.
    pub connect: bool,
    /// A byte to look for.
    pub marker: u8,
    /// A second byte to look for.
    pub marker_b: u8,
    /// The bytes at which data ends.
    pub markers: &'static [u8],
    /// Several counts, each meant by the construct that uses it.
    pub size: usize,
    pub size_b: usize,
    pub size_c: usize,
    /// An index that something starts at.
    pub start: usize,
    /// An index that something ends at.
    pub end: usize,
    /// Whether something was seen.
    pub seen: bool,
    /// The names of the events that the states in use add.
    pub token_1: Name,
    pub token_2: Name,
    pub token_3: Name,
    pub token_4: Name,
    pub token_5: Name,
    pub token_6: Name,
    /// How many spaces and tabs are read at least and at most, and how many were.
    pub space_or_tab_min: usize,
    pub space_or_tab_max: usize,
    pub space_or_tab_size: usize,
    /// The name of the event round spaces and tabs.
    pub space_or_tab_token: Name,
    /// What spaces and tabs are read as later, and whether they are joined to the chunk before.
    pub space_or_tab_content: Option<Content>,
    pub space_or_tab_connect: bool,
    /// The same where a line ending may stand among them, and whether there were any.
    pub space_or_tab_eol_content: Option<Content>,
    pub space_or_tab_eol_connect: bool,
    pub space_or_tab_eol_ok: bool,
    /// The state that reading returns to from a part that several constructs have.
    pub return_to: Option<StateName>,
}

impl<A: Allocator + Clone> TokenizeState<A> {
    ghost use Rattle.std.specs.Prelude.{◌≡◌, IfOk};
    ghost use Rattle.markdown_engine.specs.KeptState.{kept_state, nothing_kept};

    /// Nothing kept.
    pub fn new(alloc: A) -> Result<TokenizeState<A>, AllocError>
        ensures { IfOk result (λ state. kept_state state ≡ nothing_kept) }
    {
        Ok(TokenizeState {
            document_container_stack: Vec::new(alloc.clone()?),
            definitions: Vec::new(alloc.clone()?),
            gfm_footnote_definitions: Vec::new(alloc.clone()?),
            label_starts: Vec::new(alloc.clone()?),
            label_starts_loose: Vec::new(alloc.clone()?),
            labels: Vec::new(alloc),
            connect: false,
            marker: 0,
            marker_b: 0,
            markers: &[],
            size: 0,
            size_b: 0,
            size_c: 0,
            start: 0,
            end: 0,
            seen: false,
            token_1: Name::Data,
            token_2: Name::Data,
            token_3: Name::Data,
            token_4: Name::Data,
            token_5: Name::Data,
            token_6: Name::Data,
            space_or_tab_min: 0,
            space_or_tab_max: 0,
            space_or_tab_size: 0,
            space_or_tab_token: Name::SpaceOrTab,
            space_or_tab_content: None,
            space_or_tab_connect: false,
            space_or_tab_eol_content: None,
            space_or_tab_eol_connect: false,
            space_or_tab_eol_ok: false,
            return_to: None,
        })
    }
}
