//! The names that need themselves.

ghost use Rattle.std.specs.List.Sorted.{IsStrictlySortedBy};
ghost use Rattle.std.specs.Prelude.{◌≡◌, IfOk, OnOk, map, string_bytes, string_cmp, if◌then◌else◌};
ghost use Rattle.tf_config_names.specs.Cyclic.{JudgesCycles};
ghost use Rattle.tf_config_names.specs.Needs.{pair_text, AreCyclic, IsAcyclic, IsDependence};
ghost use Rattle.tf_config_names.specs.Table.{declaration_of, names_in};
ghost use Rattle.tf_config_names.specs.Texts.{put_text};

use crate::declaration::Declaration;
use crate::dependence::Dependence;
use crate::table::Declarations;
use std::alloc::{AllocError, Global};
use std::collections::BTreeSet;
use tf_config_refusal::{Code, Detail, Refusal};

impl Dependence {
    /// Returns the names that need themselves, as `local.NAME` or `TYPE.NAME`, each once and in byte order of these
    /// texts.
    ///
    /// # Errors
    ///
    /// Fails only if memory runs out.
    pub fn cyclic(&self, alloc: Global, names: &Declarations<'_>) -> Result<Vec<String>, AllocError>
        requires { IsDependence (names_in names.now) self.now }
        ensures { IfOk result (λ texts. AreCyclic (names_in names.now) (map string_bytes texts.items)) }
    {
        let mut found = BTreeSet::new(alloc);
        for place in 0..names.len() {
            note(alloc, &mut found, names.at(place), self.needs(place, place))?;
        }
        let texts = in_order(alloc, found)?;
        Ok(texts)
    }
}

/// Checks that no name of a configuration needs itself. `dependence` has to be that of the same names. On success it
/// has no place that needs itself.
///
/// # Errors
///
/// Fails with `Cycle` at `configuration`, with exactly the names that need themselves, in byte order of their texts, or
/// if memory runs out.
pub fn demand_acyclic(
    alloc: Global,
    names: &Declarations<'_>,
    dependence: &Dependence,
) -> Result<(), Refusal>
    requires { IsDependence (names_in names.now) dependence.now }
    ensures judged { JudgesCycles (names_in names.now) result }
    ensures acyclic { OnOk result (IsAcyclic dependence.now) }
{
    let texts = dependence.cyclic(alloc, names)?;
    if texts.is_empty() {
        return Ok(());
    }
    let place = String::from_str(alloc, "configuration")?;
    Err(Refusal::Fault {
        code: Code::Cycle,
        place,
        detail: Detail::Names(texts),
    })
}

/// Adds a name if it needs itself.
fn note(
    alloc: Global,
    found: &mut BTreeSet<String>,
    named: Declaration<'_>,
    needs_itself: bool,
) -> Result<(), AllocError>
    ensures { OnOk result (map string_bytes found.new.keys
        ≡ (if needs_itself then put_text (map string_bytes found.old.keys) (pair_text (declaration_of named.entry).name)
        else map string_bytes found.old.keys)) }
{
    if needs_itself {
        found.insert(text_of(alloc, named)?)?;
    }
    Ok(())
}

/// Returns a name as it is written in a text.
fn text_of(alloc: Global, named: Declaration<'_>) -> Result<String, AllocError>
    ensures { IfOk result (λ text. string_bytes text ≡ pair_text (declaration_of named.entry).name) }
{
    match named {
        Declaration::Local(name, _) => {
            let name = name.as_str();
            format!(in alloc; "local.{name}")
        }
        Declaration::Resource(addr, _) => format!(in alloc; "{addr}"),
    }
}

/// Returns the texts as a list, in byte order.
fn in_order(alloc: Global, texts: BTreeSet<String>) -> Result<Vec<String>, AllocError>
    ensures same { IfOk result (λ list. list.items ≡ texts.keys) }
    ensures sorted { IfOk result (λ list. IsStrictlySortedBy string_cmp list.items) }
{
    let mut list = Vec::new(alloc);
    for text in texts {
        list.push(text)?;
    }
    Ok(list)
}
