//! Room that is used again for each content.
ghost use Rattle.std.specs.Prelude.{◌≡◌, [], None, IfOk, string_bytes};

use crate::label::OpenLabel;
use inline_rows::InlineRow;
use inline_runs::{Pairing, Run};
use std::alloc::{AllocError, Allocator};

/// Room for the runs and the text of a content, which the next content uses again.
#[derive(Drop)]
pub struct Room<A: Allocator + Clone> {
    /// What else is allocated by.
    pub alloc: A,
    pub(crate) runs: Vec<Run, A>,
    pub(crate) slots: Vec<usize, A>,
    /// None while a content is read.
    pub(crate) pairing: Option<Box<Pairing<A>, A>>,
    /// The texts of the rows of a content in which addresses are looked for (GFM 6.9).
    pub text: String<A>,
}

impl<A: Allocator + Clone> Room<A> {
    /// Room for nothing yet.
    pub fn new(alloc: A) -> Result<Room<A>, AllocError>
        ensures runs { IfOk result (λ room. room.runs.items ≡ []) }
        ensures slots { IfOk result (λ room. room.slots.items ≡ []) }
        ensures pairing { IfOk result (λ room. room.pairing ≡ None) }
        ensures text { IfOk result (λ room. string_bytes room.text ≡ []) }
    {
        Ok(Room {
            runs: Vec::new(alloc.clone()?),
            slots: Vec::new(alloc.clone()?),
            pairing: None,
            text: String::new(alloc.clone()?),
            alloc,
        })
    }

    /// The room to pair runs in, which is to be given back.
    pub(crate) fn take_pairing(&mut self) -> Result<Box<Pairing<A>, A>, AllocError> {
        match self.pairing.take() {
            Some(pairing) => Ok(pairing),
            None => {
                let pairing = Pairing::new(self.alloc.clone()?)?;
                Ok(Box::new(self.alloc.clone()?, pairing)?)
            }
        }
    }
}

/// Room for the rows of a content and for its label starts, which borrow what is read. The next
/// content that lives as long uses it again.
#[derive(Drop)]
pub struct RowRoom<'a, A: Allocator> {
    /// The rows.
    pub rows: Vec<InlineRow<'a>, A>,
    pub(crate) labels: Vec<OpenLabel<'a>, A>,
}

impl<'a, A: Allocator + Clone> RowRoom<'a, A> {
    /// Room for nothing yet.
    pub fn new(alloc: A) -> Result<RowRoom<'a, A>, AllocError>
        ensures rows { IfOk result (λ room. room.rows.items ≡ []) }
        ensures labels { IfOk result (λ room. room.labels.items ≡ []) }
    {
        Ok(RowRoom {
            rows: Vec::new(alloc.clone()?),
            labels: Vec::new(alloc),
        })
    }
}
