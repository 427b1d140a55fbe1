//! The labels of definitions, each with the place of the first definition that has it
//! (CommonMark 4.7).
ghost use Rattle.std.specs.Prelude.{◌≡◌, ℕ, List, [], false, map, IfOk, OnErr};
ghost use Rattle.definition_text.specs.Content.{content_codes};
ghost use Rattle.definition_inline.specs.LabelMatch.{first_match, normal_label, place_of};

use crate::label::normalize_label;
use std::alloc::{AllocError, Allocator};
use std::collections::BTreeMap;

/// The places of definitions by their labels. Of equal labels the first counts (CommonMark 4.7).
#[derive(Drop)]
pub struct LabelTable<A: Allocator + Clone> {
    places: BTreeMap<String<A>, usize, A>,
    alloc: A,
}

impl<A: Allocator + Clone> LabelTable<A> {
    ghost use Rattle.inline_labels.specs.Table.{AddsLabel, HasLabels, lacks_label};

    /// Returns a table without labels.
    pub fn new(alloc: A) -> Result<LabelTable<A>, AllocError>
        ensures { IfOk result (λ table. HasLabels table []) }
    {
        Ok(LabelTable {
            places: BTreeMap::new(alloc.clone()?),
            alloc,
        })
    }

    /// Adds the label of a definition, unless the table has one that matches it (CommonMark 4.7).
    /// Returns whether the label is new. The place is the number of labels before it, including
    /// repeats. If memory runs out, the table is unchanged.
    pub fn insert(&mut self, label: &[u8], place: usize) -> Result<bool, AllocError>
        ensures added { AddsLabel self.old result self.new place label.now }
        ensures new { (labels : List (List ℕ)) → HasLabels self.old labels → IfOk result (λ is_new. is_new ≡ lacks_label labels label.now) }
        ensures repeated { (labels : List (List ℕ)) → HasLabels self.old labels → IfOk result (λ is_new. is_new ≡ false → HasLabels self.new labels) }
        ensures err { (labels : List (List ℕ)) → HasLabels self.old labels → OnErr result (HasLabels self.new labels) }
    {
        let mut normal = String::new(self.alloc.clone()?);
        normalize_label(&mut normal, label)?;
        if self.places.contains_key(normal.as_str()) {
            return Ok(false);
        }
        self.places.insert(normal, place)?;
        Ok(true)
    }

    /// Returns the place of the first label that matches this one (CommonMark 6.3). The only error
    /// is out of memory.
    pub fn find(&self, label: &[u8]) -> Result<Option<usize>, AllocError>
        ensures { (labels : List (List ℕ)) → HasLabels self.now labels → IfOk result (λ place. place ≡ first_match (content_codes label.now) labels) }
    {
        if self.places.is_empty() {
            return Ok(None);
        }
        let mut normal = String::with_capacity(self.alloc.clone()?, label.len())?;
        normalize_label(&mut normal, label)?;
        Ok(self.find_normal(normal.as_str()))
    }

    /// Returns the place of the first label whose normal form is this one (CommonMark 6.3).
    pub fn find_normal(&self, normal: &str) -> Option<usize>
        ensures { (labels : List (List ℕ)) → HasLabels self.now labels → result ≡ place_of normal.now (map normal_label labels) }
    {
        self.places.get(normal).copied()
    }
}
