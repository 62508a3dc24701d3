//! The places of names.

ghost use Rattle.std.specs.Prelude.{◌≡◌, ℕ, None, Some, IfOk, OnOk, if◌then◌else◌, map};
ghost use Rattle.tf_config_data.specs.Names.{place_of, same_pair};
ghost use Rattle.tf_config_names.specs.Declaration.{declaration_of};
ghost use Rattle.tf_config_names.specs.Places.{found_in, found_in_maps};
ghost use Rattle.tf_expr_syntax.specs.TemplateNames.{Pair};

use crate::declaration::Declaration;
use std::alloc::{AllocError, Global};
use std::collections::BTreeMap;
use std::marker::Model;

/// The places of names, by the text before the dot and then by the one after it.
#[derive(Drop)]
pub struct Places {
    by_first: BTreeMap<String, BTreeMap<String, usize>>,
}

impl Model for Places {
    ghost use Rattle.tf_config_names.specs.Places.{PlacesView, places_view};

    ghost Value = { PlacesView };

    ghost view = { λ p. places_view p.by_first.entries };
}

impl Places {
    /// Returns a table in which no name has a place.
    pub fn empty(alloc: Global) -> Places
        ensures { (pair : Pair) → found_in result pair ≡ None }
    {
        Places {
            by_first: BTreeMap::new(alloc),
        }
    }

    /// Builds the places of the names in a list, from 0 on. Of equal names it keeps the first.
    ///
    /// # Errors
    ///
    /// Fails only if memory runs out.
    pub(crate) fn of(alloc: Global, entries: &[Declaration<'_>]) -> Result<Places, AllocError>
        ensures { IfOk result (λ places. (pair : Pair) → found_in places pair ≡ place_of (map declaration_of entries.now) pair) }
    {
        let mut places = Places::empty(alloc);
        for place in (0..entries.len()).rev() {
            let (first, name) = entries[place].texts();
            places.put(alloc, first, name, place)?;
        }
        Ok(places)
    }

    /// Returns the place of a name, given by the two texts around its dot, or `None` if it has no place.
    pub fn find(&self, first: &str, name: &str) -> Option<usize>
        ensures { result ≡ found_in self.now (first.now, name.now) }
    {
        place_in(&self.by_first, first, name)
    }

    /// Puts a name at a place, and removes its former place.
    ///
    /// # Errors
    ///
    /// Fails only if memory runs out.
    pub fn put(
        &mut self,
        alloc: Global,
        first: &str,
        name: &str,
        place: usize,
    ) -> Result<(), AllocError>
        ensures { OnOk result ((pair : Pair) → found_in self.new pair
            ≡ (if same_pair (first.now, name.now) pair then Some place else found_in self.old pair)) }
    {
        put_in(&mut self.by_first, alloc, first, name, place)
    }
}

/// A map of maps, by the text before the dot and then by the one after it.
type ByFirst = BTreeMap<String, BTreeMap<String, usize>>;

/// Returns the place in a map of maps under two texts.
fn place_in(by_first: &ByFirst, first: &str, name: &str) -> Option<usize>
    ensures { result ≡ found_in_maps by_first.now (first.now, name.now) }
{
    let names = by_first.get(first)?;
    names.get(name).copied()
}

/// Puts a place into a map of maps under two texts.
fn put_in(
    by_first: &mut ByFirst,
    alloc: Global,
    first: &str,
    name: &str,
    place: usize,
) -> Result<(), AllocError>
    ensures { OnOk result ((pair : Pair) → found_in_maps by_first.new pair
        ≡ (if same_pair (first.now, name.now) pair then Some place else found_in_maps by_first.old pair)) }
{
    let name = String::from_str(alloc, name)?;
    if let Some(names) = by_first.get_mut(first) {
        names.insert(name, place)?;
        return Ok(());
    }
    let mut names = BTreeMap::new(alloc);
    names.insert(name, place)?;
    let first = String::from_str(alloc, first)?;
    by_first.insert(first, names)?;
    Ok(())
}
