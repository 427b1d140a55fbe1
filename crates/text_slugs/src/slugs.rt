//! Slugs that differ from one another (in no standard; as GitHub makes them).
ghost use Rattle.std.specs.Prelude.{◌≡◌, ◌+◌, ◌++◌, ◌∷◌, ℕ, List, [], false, map, IfOk, OnErr, OnOk, string_bytes};
ghost use Rattle.definition_page.specs.Slug.{is_taken, next_slug, with_slug};
ghost use Rattle.text_slugs.specs.Slugs.{AreTaken, HasSlugs, IsFree};

use crate::slug::push_slug;
use std::alloc::{AllocError, Allocator};
use std::collections::BTreeMap;
use std::marker::Model;

/// The slugs of texts, which differ from one another. No slugs take no memory.
#[derive(Drop)]
pub struct Slugs<A: Allocator + Clone> {
    /// The slugs, in the order of their texts.
    taken: Vec<String<A>, A>,
    /// Each slug, with a number up to which all of its numbered slugs are taken.
    numbers: BTreeMap<String<A>, usize, A>,
    alloc: A,
}

impl<A: Allocator + Clone> Model for Slugs<A> {
    ghost use Rattle.std.specs.Prelude.{ℕ, List, map, string_bytes};

    ghost Value = { List (List ℕ) };

    ghost use Rattle.text_slugs.specs.Slugs.{HasSlugs};

    ghost view = { λ slugs. map string_bytes slugs.taken.items };

    ghost invariant = { λ slugs. HasSlugs slugs.numbers (map string_bytes slugs.taken.items) };
}

impl<A: Allocator + Clone> Slugs<A> {
    /// Returns no slugs.
    pub fn new(alloc: A) -> Result<Slugs<A>, AllocError>
        ensures { IfOk result (λ slugs. slugs ≡ []) }
    {
        Ok(Slugs {
            taken: Vec::new(alloc.clone()?),
            numbers: BTreeMap::new(alloc.clone()?),
            alloc,
        })
    }

    /// Whether a text has this slug.
    pub fn has(&self, slug: &str) -> bool
        ensures { result ≡ is_taken self.now slug.now }
    {
        self.numbers.contains_key(slug)
    }

    /// Appends the slug of a further text to `out`. If the slug is taken, it has `-1`, `-2`, .. at its end: the
    /// first that no text before has. The only error is out of memory.
    pub fn add(&mut self, out: &mut String<A>, text: &str) -> Result<(), AllocError>
        ensures appended { OnOk result (string_bytes out.new ≡ string_bytes out.old ++ next_slug self.old text.now) }
        ensures added { OnOk result (self.new ≡ with_slug self.old text.now) }
    {
        let mut slug = String::new(self.alloc.clone()?);
        push_slug(&mut slug, text)?;
        let Some(last) = self.numbers.get(slug.as_str()).copied() else {
            store(&self.alloc, &mut self.taken, &mut self.numbers, out, slug)?;
            return Ok(());
        };
        let (number, free) = next_free(&self.alloc, &self.numbers, slug.as_str(), last)?;
        store(&self.alloc, &mut self.taken, &mut self.numbers, out, free)?;
        self.numbers.insert(slug, number)?;
        Ok(())
    }
}

/// Appends a slug that is free to `out`, and takes it. After an error the slugs are as before.
fn store<A: Allocator + Clone>(
    alloc: &A,
    taken: &mut Vec<String<A>, A>,
    numbers: &mut BTreeMap<String<A>, usize, A>,
    out: &mut String<A>,
    free: String<A>,
) -> Result<(), AllocError>
    ensures appended { OnOk result (string_bytes out.new ≡ string_bytes out.old ++ string_bytes free) }
    ensures taken { OnOk result (map string_bytes taken.new.items ≡ map string_bytes taken.old.items ++ string_bytes free ∷ []) }
    ensures numbers { (slugs : List (List ℕ)) → HasSlugs numbers.old slugs → is_taken slugs (string_bytes free) ≡ false →
        OnOk result (HasSlugs numbers.new (slugs ++ string_bytes free ∷ [])) }
    ensures same { OnErr result ((taken.new.items ≡ taken.old.items) × (numbers.new.entries ≡ numbers.old.entries)) }
{
    let slug = String::from_str(alloc.clone()?, free.as_str())?;
    out.push_str(free.as_str())?;
    taken.reserve(1)?;
    numbers.insert(free, 0)?;
    // There is room for it.
    taken.push(slug)?;
    Ok(())
}

/// The first number after the last one with which a slug is free, and the slug with it. Of as many numbers as
/// there are slugs, one is free.
fn next_free<A: Allocator + Clone>(
    alloc: &A,
    numbers: &BTreeMap<String<A>, usize, A>,
    slug: &str,
    last: usize,
) -> Result<(usize, String<A>), AllocError>
    ensures { (taken : List (List ℕ)) → HasSlugs numbers.now taken → AreTaken taken slug.now (last + 1) →
        IfOk result (λ found. IsFree taken slug.now found.0 (string_bytes found.1)) }
{
    for before in last..numbers.len() {
        let number = before + 1;
        let free = format!(in alloc.clone()?; "{slug}-{number}")?;
        if !numbers.contains_key(free.as_str()) {
            return Ok((number, free));
        }
    }
    Ok((last, String::from_str(alloc.clone()?, slug)?))
}
