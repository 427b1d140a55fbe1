//! The footnotes that are called, by their numbers.
ghost use Rattle.std.specs.Prelude.{◌≡◌, ℕ, ◌+◌, ◌<◌, [], ◌∷◌, ◌++◌, IfOk, OnErr, OnOk};
ghost use Rattle.std.specs.Prelude.{map, slice_index_or, slice_set, string_bytes, vec_len};
ghost use Rattle.html_bytes.specs.Layout as layout;
ghost use Rattle.html_bytes.specs.Layout.{latest_call, note_of, once_more};
ghost use Rattle.html_footnotes.specs.Calls.{called_once, called_view, number_of, IsRaised};
ghost use Rattle.html_footnotes.specs.Footnotes.{call_view, note_view};

use crate::gfm_footnote_definition::Footnote;
use crate::gfm_label_start_footnote::Call;
use std::alloc::{AllocError, Allocator};
use std::marker::Model;

/// A footnote that is called.
#[derive(Drop)]
pub(crate) struct CalledFootnote<A: Allocator> {
    /// Its place among the footnotes of the document, in the order in which these end.
    pub(crate) place: usize,
    /// Its label as labels are matched.
    pub(crate) label: String<A>,
    /// How many calls it has so far.
    pub(crate) count: usize,
}

/// The footnotes that are called, in the order of their first calls.
#[derive(Drop)]
pub struct Calls<A: Allocator> {
    called: Vec<CalledFootnote<A>, A>,
    // By a footnote's place its number, and 0 while it isn't called.
    numbers: Vec<usize, A>,
    alloc: A,
}

impl<A: Allocator> Model for Calls<A> {
    ghost use Rattle.std.specs.Prelude.{List, map};
    ghost use Rattle.html_bytes.specs.Layout as layout;

    ghost Value = { List layout.NoteCalls };

    ghost use Rattle.html_footnotes.specs.Calls.{AreNumbers, called_view};

    ghost view = { λ c. map called_view c.called.items };

    ghost invariant = { λ c. AreNumbers c.numbers.items (map called_view c.called.items) };
}

impl<A: Allocator + Clone> Calls<A> {
    /// No footnote is called yet.
    pub(crate) fn new(alloc: A) -> Result<Calls<A>, AllocError>
        ensures { IfOk result (λ calls. calls ≡ []) }
    {
        let called = Vec::new(alloc.clone()?);
        let numbers = Vec::new(alloc.clone()?);
        Ok(Calls {
            called,
            numbers,
            alloc,
        })
    }

    /// Counts one more call of the footnote at a place.
    pub(crate) fn count(&mut self, place: usize, label: &str) -> Result<(), AllocError>
        ensures called { OnOk result (self.new ≡ once_more place label.now self.old) }
        ensures number { OnOk result (0 < number_of place self.new) }
    {
        make_room(&mut self.numbers, place)?;
        let number = self.numbers[place];
        if number > 0 {
            raise(&mut self.called, number - 1)?;
            return Ok(());
        }
        let alloc = self.alloc.clone()?;
        add(alloc, &mut self.called, &mut self.numbers, place, label)?;
        Ok(())
    }

    /// The latest call of the footnote at a place.
    pub(crate) fn latest(&self, place: usize) -> Call<'_>
        requires { 0 < number_of place self.now }
        ensures { call_view result ≡ latest_call place 1 self.now }
    {
        let number = self.numbers[place];
        let called = &self.called[number - 1];
        Call {
            label: called.label.as_str(),
            number,
            count: called.count,
        }
    }

    /// The footnotes that are called, with their contents.
    pub(crate) fn footnotes<'a>(
        &'a self,
        notes: &'a [String<A>],
    ) -> Result<Vec<Footnote<'a>, A>, AllocError>
        ensures { IfOk result (λ footnotes. map note_view footnotes.items ≡ map (note_of (map string_bytes notes.now)) self.now) }
    {
        footnotes_of(self.alloc.clone()?, &self.called, notes)
    }
}

/// A footnote with its content, of the contents of the footnotes that have ended.
fn footnote_of<'a, A: Allocator>(
    called: &'a CalledFootnote<A>,
    notes: &'a [String<A>],
) -> Footnote<'a>
    ensures { note_view result ≡ note_of (map string_bytes notes.now) (called_view called.now) }
{
    let html = match notes.get(called.place) {
        None => "",
        Some(note) => note.as_str(),
    };
    Footnote {
        label: called.label.as_str(),
        calls: called.count,
        html,
    }
}

/// These footnotes with their contents.
fn footnotes_of<'a, A: Allocator>(
    alloc: A,
    called: &'a [CalledFootnote<A>],
    notes: &'a [String<A>],
) -> Result<Vec<Footnote<'a>, A>, AllocError>
    ensures { IfOk result (λ footnotes. map note_view footnotes.items ≡ map (note_of (map string_bytes notes.now)) (map called_view called.now)) }
{
    let mut footnotes = Vec::new(alloc);
    for one in called {
        footnotes.push(footnote_of(one, notes))?;
    }
    Ok(footnotes)
}

/// Makes room for the number of the footnote at a place.
fn make_room<A: Allocator>(numbers: &mut Vec<usize, A>, place: usize) -> Result<(), AllocError>
    ensures same { (k : ℕ) → slice_index_or numbers.new.items k 0 ≡ slice_index_or numbers.old.items k 0 }
    ensures room { OnOk result (place < vec_len numbers.new) }
{
    let wanted = one_more(place)?;
    if numbers.len() < wanted {
        numbers.resize(wanted, 0)?;
    }
    Ok(())
}

/// One more than this: nobody has room for as many as can't be counted.
fn one_more(count: usize) -> Result<usize, AllocError>
    ensures { IfOk result (λ more. more ≡ count + 1) }
{
    count.checked_add(1).ok_or(AllocError)
}

/// Counts one more call of one of these footnotes. After an error nothing has changed.
fn raise<A: Allocator>(called: &mut Vec<CalledFootnote<A>, A>, at: usize) -> Result<(), AllocError>
    requires { at < vec_len called.old }
    ensures raised { OnOk result (IsRaised (map called_view called.old.items) (map called_view called.new.items) at) }
    ensures same { OnErr result (called.new.items ≡ called.old.items) }
{
    let count = one_more(called[at].count)?;
    called[at].count = count;
    Ok(())
}

/// Adds a footnote that is called for the first time, and its number. After an error nothing has
/// changed.
fn add<A: Allocator>(
    alloc: A,
    called: &mut Vec<CalledFootnote<A>, A>,
    numbers: &mut Vec<usize, A>,
    place: usize,
    label: &str,
) -> Result<(), AllocError>
    requires { place < vec_len numbers.old }
    ensures called { OnOk result (map called_view called.new.items ≡ map called_view called.old.items ++ called_once place label.now ∷ []) }
    ensures numbers { OnOk result (numbers.new.items ≡ slice_set numbers.old.items place (vec_len called.old + 1)) }
    ensures same { OnErr result ((called.new.items ≡ called.old.items) × (numbers.new.items ≡ numbers.old.items)) }
{
    let label = String::from_str(alloc, label)?;
    called.push(CalledFootnote {
        place,
        label,
        count: 1,
    })?;
    numbers[place] = called.len();
    Ok(())
}
