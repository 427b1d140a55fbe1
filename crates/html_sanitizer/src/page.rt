//! The page that is printed, and the raw elements that are open in it.
ghost use Rattle.std.specs.Prelude.{◌≡◌, ℕ, ◌++◌, ◌∷◌, ◌<◌, ◌&&◌, ◌||◌, [], not, IfOk, OnOk, if◌then◌else◌, length, nat_lt, slice_index_or, string_bytes};
ghost use Rattle.definition_text.specs.Encode.{encode};
ghost use Rattle.definition_page.specs.Tags.{Tag, end_tag};
ghost use Rattle.std.specs.List.{list_any};
ghost use Rattle.definition_html.specs.Listing.{is_in, heading_names};
ghost use Rattle.definition_html.specs.State.{State, nothing_open, says, with_open, opened, ended, ended_to, all_ended, count_to, begins_with_frame};
ghost use Rattle.definition_html.specs.State.{without_frame, with_room, entered, left};
ghost use Rattle.definition_html.specs.Listed.{begins};
ghost use Rattle.html_safe_page.specs.Views.{names_of, open_names};
ghost use Rattle.html_sanitizer.specs.Page.{page_state};

use crate::listing::{DEEPEST, FRAME_NAMES, parents_of};
use html_escape::push_encoded;
use html_listed::listing::{HEADING_NAMES, is_heading, is_in};
use std::alloc::{AllocError, Allocator};
use std::mem::replace;

/// An element of the page's own that is open, or the page.
#[derive(Drop)]
pub(crate) struct Level<A: Allocator> {
    /// Whether it is a heading or in one.
    pub(crate) in_heading: bool,
    /// The names of the raw elements that are open in it, the innermost last.
    pub(crate) names: Vec<&'static str, A>,
}

/// A page up to a place.
#[derive(Drop)]
pub(crate) struct Page<A: Allocator> {
    /// What is printed.
    pub(crate) out: String<A>,
    /// The innermost level.
    pub(crate) level: Level<A>,
    /// The levels around it, the innermost last.
    pub(crate) around: Vec<Level<A>, A>,
}

impl<A: Allocator + Clone> Page<A> {
    /// Nothing is printed.
    pub(crate) fn new(alloc: A) -> Result<Page<A>, AllocError>
        ensures { IfOk result (λ page. page_state page ≡ nothing_open) }
    {
        Ok(Page {
            out: String::new(alloc.clone()?),
            level: Level {
                in_heading: false,
                names: Vec::new(alloc.clone()?),
            },
            around: Vec::new(alloc),
        })
    }
}

impl<A: Allocator> Page<A> {
    /// Prints a text.
    pub(crate) fn push_text(&mut self, text: &str) -> Result<(), AllocError>
        ensures { OnOk result (page_state self.new ≡ says (encode text.now) (page_state self.old)) }
    {
        push_encoded(&mut self.out, text)
    }

    /// An element of this name is open from here on.
    pub(crate) fn open(&mut self, name: &'static str) -> Result<(), AllocError>
        ensures { OnOk result (page_state self.new ≡ with_open (name.now ∷ open_names self.old.level.names.items) (page_state self.old)) }
    {
        self.level.names.push(name)?;
        Ok(())
    }

    /// Ends the last so many elements.
    pub(crate) fn end(&mut self, count: usize) -> Result<(), AllocError>
        ensures { OnOk result (page_state self.new ≡ ended count (page_state self.old)) }
    {
        let mut left = count;
        while left > 0 {
            let Some(name) = self.level.names.pop() else {
                return Ok(());
            };
            push_end_tag(&mut self.out, name)?;
            left -= 1;
        }
        Ok(())
    }

    /// Ends the last element of these names, with those in it.
    pub(crate) fn end_to(&mut self, wanted: &[&str]) -> Result<(), AllocError>
        ensures { OnOk result (page_state self.new ≡ ended_to (names_of wanted.now) (page_state self.old)) }
    {
        let count = count_to(self.level.names.as_slice(), wanted);
        self.end(count)
    }

    /// Ends all elements.
    pub(crate) fn end_all(&mut self) -> Result<(), AllocError>
        ensures { OnOk result (page_state self.new ≡ all_ended (page_state self.old)) }
    {
        let count = self.level.names.len();
        self.end(count)
    }

    /// Whether the last element holds nothing but its parts and text.
    fn is_in_frame(&self) -> bool
        ensures { result ≡ begins_with_frame (open_names self.now.level.names.items) }
    {
        match self.level.names.as_slice().split_last() {
            Some((name, _)) => is_in(&FRAME_NAMES, name),
            None => false,
        }
    }

    /// Ends what can't hold an element of this name: a table, and for a heading a heading.
    pub(crate) fn make_room(&mut self, name: &str) -> Result<(), AllocError>
        ensures { OnOk result (page_state self.new ≡ with_room name.now (page_state self.old)) }
    {
        self.end_frame()?;
        if is_heading(name) {
            self.end_to(&HEADING_NAMES)
        } else {
            Ok(())
        }
    }

    /// Ends a table that would hold something else than its parts.
    fn end_frame(&mut self) -> Result<(), AllocError>
        ensures { OnOk result (page_state self.new ≡ without_frame (page_state self.old)) }
    {
        if self.is_in_frame() {
            self.end_to(&["table"])
        } else {
            Ok(())
        }
    }

    /// Ends what is open above the place of an element of this name. Returns whether there is one.
    pub(crate) fn find_place(&mut self, name: &str) -> Result<bool, AllocError>
        ensures { IfOk result (λ found. (next : State → State) (t : Tag) → t.name ≡ name.now
            → begins next t (page_state self.old) ≡ (if found then next (opened t (page_state self.new)) else page_state self.new)) }
    {
        let parents = parents_of(name);
        if parents.is_empty() {
            self.make_room(name)?;
            return Ok(self.may_hold(name));
        }
        let count = count_to(self.level.names.as_slice(), parents);
        if count == 0 {
            return Ok(false);
        }
        self.end(count - 1)?;
        Ok(self.has_room())
    }

    /// Whether an element of this name, which is no part, may begin once there is room for it.
    fn may_hold(&self, name: &str) -> bool
        ensures { result ≡ (nat_lt (length (open_names self.now.level.names.items)) 50 && not (self.now.level.in_heading && is_in heading_names name.now)) }
    {
        self.has_room() && !self.is_second_heading(name)
    }

    /// Whether an element of this name is a heading that would stand in another.
    fn is_second_heading(&self, name: &str) -> bool
        ensures { result ≡ (self.now.level.in_heading && is_in heading_names name.now) }
    {
        if self.level.in_heading {
            is_heading(name)
        } else {
            false
        }
    }

    /// Whether one more element may be open.
    fn has_room(&self) -> bool
        ensures { result ≡ nat_lt (length (open_names self.now.level.names.items)) 50 }
    {
        self.level.names.len() < DEEPEST
    }

    /// An element of the page's own begins.
    pub(crate) fn enter(&mut self, alloc: A, name: &str) -> Result<(), AllocError>
        ensures { OnOk result (page_state self.new ≡ entered name.now (page_state self.old)) }
    {
        let inside = Level {
            in_heading: self.makes_heading(name),
            names: Vec::new(alloc),
        };
        let level = replace(&mut self.level, inside);
        self.around.push(level)?;
        Ok(())
    }

    /// Whether an element of the page's own is a heading or in one.
    fn makes_heading(&self, name: &str) -> bool
        ensures { result ≡ (self.now.level.in_heading || is_in heading_names name.now
            || list_any (is_in heading_names) (open_names self.now.level.names.items)) }
    {
        if self.level.in_heading {
            return true;
        }
        if is_heading(name) {
            return true;
        }
        self.has_heading()
    }

    /// Whether a raw heading is open.
    fn has_heading(&self) -> bool
        ensures { result ≡ list_any (is_in heading_names) (open_names self.now.level.names.items) }
    {
        count_to(self.level.names.as_slice(), &HEADING_NAMES) != 0
    }

    /// An element of the page's own ends, once those in it have.
    pub(crate) fn leave(&mut self)
        ensures { page_state self.new ≡ left (page_state self.old) }
    {
        if let Some(level) = self.around.pop() {
            self.level = level;
        }
    }
}

/// How many elements are open up to the last one of these names, with it; 0 if none is.
fn count_to(names: &[&str], wanted: &[&str]) -> usize
    ensures { result ≡ count_to (names_of wanted.now) (open_names names.now) }
{
    for above in 0..names.len() {
        if is_in(wanted, name_at(names, names.len() - 1 - above)) {
            return above + 1;
        }
    }
    0
}

fn name_at<'a>(names: &[&'a str], place: usize) -> &'a str
    requires { place < length names.now }
    ensures { result.now ≡ slice_index_or (names_of names.now) place [] }
{
    names[place]
}

/// Appends an end tag.
fn push_end_tag<A: Allocator>(out: &mut String<A>, name: &str) -> Result<(), AllocError>
    ensures { OnOk result (string_bytes out.new ≡ string_bytes out.old ++ end_tag name.now) }
{
    out.push_str("</")?;
    out.push_str(name)?;
    out.push_str(">")
}
