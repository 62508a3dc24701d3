//! The dependencies of a resource, as a state stores them.

ghost use Rattle.std.specs.Option.{option_to_list};
ghost use Rattle.std.specs.Prelude.{◌≡◌, ◌<◌, ◌++◌, ◌∷◌, [], ℕ, Bool, Contains, IfOk, OnOk, length, map, string_bytes};
ghost use Rattle.tf_plan_data.specs.Words.{addr_of, addr_text, meant_at, names_in};
ghost use Rattle.tf_graph.specs.Lists.{row};
ghost use Rattle.tf_walk_buffers.specs.Dependencies.{address_of, addresses, addresses_at, dependencies, put_all};

use std::alloc::{AllocError, Global};
use std::collections::BTreeSet;
use std::iter::FromIterator;
use tf_config_address::ResourceAddr;
use tf_config_names::{Declaration, Declarations};
use tf_plan_data::addr_text;

/// Returns the addresses `TYPE.NAME` of the resources in the list at an index, in byte order.
///
/// # Errors
///
/// Fails with `AllocError` if memory runs out.
pub(crate) fn dependencies_listed(
    alloc: Global,
    names: &Declarations<'_>,
    lists: &[Vec<usize>],
    place: usize,
) -> Result<BTreeSet<String>, AllocError>
    requires inside { place < length lists.now }
    requires within { (m : ℕ) → Contains (row lists.now place) m → m < length (names_in names.now) }
    ensures { IfOk result (λ found. (needs : ℕ → ℕ → Bool) → addresses_at (names_in names.now) (row lists.now place) ≡ addresses needs (names_in names.now) place
        → map string_bytes found.keys ≡ dependencies needs (names_in names.now) place) }
{
    let found = addresses_at(alloc, names, lists[place].as_slice())?;
    in_order(alloc, found)
}

/// Returns the addresses of the resources at some indexes.
fn addresses_at(
    alloc: Global,
    names: &Declarations<'_>,
    places: &[usize],
) -> Result<Vec<String>, AllocError>
    requires { (m : ℕ) → Contains places.now m → m < length (names_in names.now) }
    ensures { IfOk result (λ found. map string_bytes found.items ≡ addresses_at (names_in names.now) places.now) }
{
    let mut found = Vec::with_capacity(alloc, places.len())?;
    for place in places {
        note(alloc, &mut found, names, *place)?;
    }
    Ok(found)
}

/// Returns texts in byte order, each once. All are sorted together: if they are in order already, each is compared only
/// with its neighbours.
fn in_order(alloc: Global, texts: Vec<String>) -> Result<BTreeSet<String>, AllocError>
    ensures { IfOk result (λ found. map string_bytes found.keys ≡ put_all (map string_bytes texts.items)) }
{
    BTreeSet::from_iter(alloc, texts)
}

/// Adds the address of the name at an index, if that is a resource.
fn note(
    alloc: Global,
    found: &mut Vec<String>,
    names: &Declarations<'_>,
    place: usize,
) -> Result<(), AllocError>
    requires { place < length (names_in names.now) }
    ensures { OnOk result (map string_bytes found.new.items
        ≡ map string_bytes found.old.items ++ option_to_list (address_of (meant_at (names_in names.now) place))) }
{
    match names.at(place) {
        Declaration::Local(_, _) => Ok(()),
        Declaration::Resource(addr, _) => note_addr(alloc, found, addr),
    }
}

/// Adds an address.
fn note_addr(alloc: Global, found: &mut Vec<String>, addr: &ResourceAddr) -> Result<(), AllocError>
    ensures { OnOk result (map string_bytes found.new.items ≡ map string_bytes found.old.items ++ addr_text (addr_of addr.now) ∷ []) }
{
    found.push(addr_text(alloc, addr)?)?;
    Ok(())
}
