//! The table of a configuration's names.

ghost use Rattle.std.specs.Prelude.{◌≡◌, ◌<◌, ◌++◌, ◌∷◌, [], Some, IfOk, OnOk, length, map, slice_get};
ghost use Rattle.tf_config_data.specs.Words.{block_at, block_refers, config_of, directly_before, entries_view, addr_of, addr_pair, ResourceAddrView, meant_at, named_below, named_by, named_in_repetition, names_of, Pair, place_of, places, refers, repetition_of, tree_of};
ghost use Rattle.tf_config_names.specs.Declaration.{declaration_of};
ghost use Rattle.tf_config_names.specs.Needs.{IsDependence};
ghost use Rattle.tf_config_names.specs.Places.{found_in};

use crate::declaration::Declaration;
use crate::dependence::Dependence;
use crate::places::Places;
use std::alloc::{AllocError, Global};
use std::collections::BTreeMap;
use tf_config_address::ResourceAddr;
use tf_config_data::{Block, Config, Repetition};
use tf_expr_syntax::Expr;

/// The names of a configuration that can need and be needed: its locals in byte order, then its resources in address
/// order. Each has a place, from 0 on. Places are looked up in a table that was built once.
#[derive(Drop)]
pub struct Declarations<'a> {
    entries: Vec<Declaration<'a>>,
    places: &'a Places,
    ghost placed: { (pair : Pair) → found_in places.now pair ≡ place_of (map declaration_of entries.items) pair },
}

impl<'a> Declarations<'a> {
    ghost use Rattle.tf_config_names.specs.Table.{names_in};

    /// Builds the names of a configuration. Their places are those of its dependence.
    ///
    /// # Errors
    ///
    /// Fails only if memory runs out.
    pub fn new(
        alloc: Global,
        config: &'a Config,
        dependence: &'a Dependence,
    ) -> Result<Declarations<'a>, AllocError>
        requires { IsDependence (names_of (config_of config.now)) dependence.now }
        ensures { IfOk result (λ names. names_in names ≡ names_of (config_of config.now)) }
    {
        let entries = declarations_of(alloc, config)?;
        let places = dependence.places();
        Ok(Declarations { entries, places })
    }

    /// Builds a table of names whose places are already known.
    pub(crate) fn placed(entries: Vec<Declaration<'a>>, places: &'a Places) -> Declarations<'a>
        requires { (pair : Pair) → found_in places.now pair ≡ place_of (map declaration_of entries.items) pair }
        ensures { names_in result ≡ map declaration_of entries.entry.items }
    {
        Declarations { entries, places }
    }

    /// Returns how many names there are.
    pub fn len(&self) -> usize
        ensures { result ≡ length (names_in self.now) }
    {
        self.entries.len()
    }

    /// Returns the name at a place.
    pub fn at(&self, place: usize) -> Declaration<'a>
        requires { place < length (names_in self.now) }
        ensures name { slice_get (names_in self.now) place ≡ Some (declaration_of result) }
        ensures meant { meant_at (names_in self.now) place ≡ Some (declaration_of result).meant }
    {
        self.entries[place]
    }

    /// Returns the place of a name, given by the two texts around its dot, or `None` if it isn't declared.
    pub fn place(&self, first: &str, name: &str) -> Option<usize>
        ensures { result ≡ place_of (names_in self.now) (first.now, name.now) }
    {
        self.places.find(first, name)
    }

    /// Returns the places of all names that the one at a place refers to directly, once for each reference: in its
    /// expressions, including both branches of a conditional, and in `depends_on`. What isn't declared is left out.
    ///
    /// # Errors
    ///
    /// Fails only if memory runs out.
    pub fn before(&self, alloc: Global, place: usize) -> Result<Vec<usize>, AllocError>
        requires { place < length (names_in self.now) }
        ensures { IfOk result (λ before. before.items ≡ directly_before (names_in self.now) place) }
    {
        let mut found = Vec::new(alloc);
        self.add_meant(self.at(place), &mut found)?;
        Ok(found)
    }

    /// Returns the places of all names that an expression names, once for each reference, including both branches of a
    /// conditional. What isn't declared is left out.
    ///
    /// # Errors
    ///
    /// Fails only if memory runs out.
    pub fn named_in(&self, alloc: Global, expr: &Expr) -> Result<Vec<usize>, AllocError>
        ensures { IfOk result (λ found. found.items ≡ places (names_in self.now) (named_by (tree_of expr.now))) }
    {
        let mut found = Vec::new(alloc);
        self.add_named(expr, &mut found)?;
        Ok(found)
    }

    /// Adds the places of what a name refers to.
    fn add_meant(&self, named: Declaration<'_>, found: &mut Vec<usize>) -> Result<(), AllocError>
        ensures { OnOk result (found.new.items
            ≡ found.old.items ++ places (names_in self.now) (refers (declaration_of named.entry).meant)) }
    {
        match named {
            Declaration::Local(_, expr) => self.add_named(expr, found),
            Declaration::Resource(_, block) => {
                self.add_block(block, found)?;
                Ok(())
            }
        }
    }

    /// Adds the places of what a block refers to.
    fn add_block(&self, block: &Block, found: &mut Vec<usize>) -> Result<(), AllocError>
        ensures { OnOk result ((addr : ResourceAddrView) → found.new.items
            ≡ found.old.items ++ places (names_in self.now) (block_refers (block_at addr block.now))) }
    {
        self.add_repetition(&block.repetition, found)?;
        self.add_named_below(&block.arguments, found)?;
        self.add_addrs(block.depends_on.as_slice(), found)?;
        Ok(())
    }

    /// Adds the places of what `count` or `for_each` names.
    fn add_repetition(
        &self,
        repetition: &Repetition,
        found: &mut Vec<usize>,
    ) -> Result<(), AllocError>
        ensures { OnOk result (found.new.items
            ≡ found.old.items ++ places (names_in self.now) (named_in_repetition (repetition_of repetition.now))) }
    {
        match repetition {
            Repetition::Single => Ok(()),
            Repetition::Count(expr) | Repetition::ForEach(expr) => { self.add_named(expr, found) }
        }
    }

    /// Adds the places of resources.
    fn add_addrs(&self, addrs: &[ResourceAddr], found: &mut Vec<usize>) -> Result<(), AllocError>
        ensures { OnOk result (found.new.items
            ≡ found.old.items ++ places (names_in self.now) (map addr_pair (map addr_of addrs.now))) }
    {
        for addr in addrs {
            self.add_place(addr.type_name.as_str(), addr.name.as_str(), found)?;
        }
        Ok(())
    }

    /// Adds the places of what the expressions of a map name.
    fn add_named_below(
        &self,
        entries: &BTreeMap<String, Expr>,
        found: &mut Vec<usize>,
    ) -> Result<(), AllocError>
        ensures { OnOk result (found.new.items
            ≡ found.old.items ++ places (names_in self.now) (named_below (entries_view entries.now.entries))) }
    {
        for (_, expr) in entries.iter() {
            self.add_named(expr, found)?;
        }
        Ok(())
    }

    /// Adds the places of what an expression names.
    fn add_named(&self, expr: &Expr, found: &mut Vec<usize>) -> Result<(), AllocError>
        ensures { OnOk result (found.new.items ≡ found.old.items ++ places (names_in self.now) (named_by (tree_of expr.now))) }
    {
        let named = expr.names_within(*found.allocator())?;
        for &reference in named.references.as_slice() {
            self.add_place(reference.first.as_str(), reference.name.as_str(), found)?;
        }
        Ok(())
    }

    /// Adds the place of a name if it is declared.
    fn add_place(&self, first: &str, name: &str, found: &mut Vec<usize>) -> Result<(), AllocError>
        ensures { OnOk result (found.new.items
            ≡ found.old.items ++ places (names_in self.now) ((first.now, name.now) ∷ [])) }
    {
        if let Some(place) = self.place(first, name) {
            found.push(place)?;
        }
        Ok(())
    }
}

/// Returns the names of a configuration, in the order of their places.
pub(crate) fn declarations_of<'a>(
    alloc: Global,
    config: &'a Config,
) -> Result<Vec<Declaration<'a>>, AllocError>
    ensures { IfOk result (λ entries. map declaration_of entries.items ≡ names_of (config_of config.now)) }
{
    let mut entries = Vec::with_capacity(alloc, config.locals.len() + config.resources.len())?;
    for (name, expr) in config.locals.iter() {
        entries.push(Declaration::Local(name, expr))?;
    }
    for (addr, block) in config.resources.iter() {
        entries.push(Declaration::Resource(addr, block))?;
    }
    Ok(entries)
}
