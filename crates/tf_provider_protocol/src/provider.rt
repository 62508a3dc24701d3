//! The interface of providers, and the law that each keeps.

ghost use Rattle.std.specs.Prelude.{◌≡◌, map, is_some, option_map};
ghost use Rattle.tf_provider_protocol.specs.Meaning.{first_with, schema_in};

use crate::request::{Reply, Request};
use crate::schema::Schema;

/// A provider, which creates, updates and destroys the objects of some types. The law: a schema depends only on the
/// provider and the type, and a reply only on the provider and the request. The exception is a reply that memory ran
/// out, and then nothing was done.
pub trait Provider: Drop {
    ghost use Rattle.std.specs.Prelude.{◌≡◌, MatchOption, IfSome, Some, None};
    ghost use Rattle.tf_provider_protocol.specs.Meaning.{Meaning, asked, answered};

    ghost meaning: { Self → Meaning };

    /// Returns the schema of a type, if this provider has the type.
    fn schema(&self, type_name: &str) -> Option<&Schema>
        ensures { MatchOption result
            ((meaning self.now).schema_of type_name.now ≡ None)
            (λ s. (meaning self.now).schema_of type_name.now ≡ Some s.now) };

    /// Carries out a request, and returns the outcome.
    fn apply(&self, request: &Request) -> Reply
        ensures { IfSome (answered result) (λ a. a ≡ (meaning self.now).answer (asked request.now)) };
}

/// Returns the first provider that has a schema for a type.
pub fn first_provider<'a>(
    providers: &'a [Box<dyn Provider + Sync>],
    type_name: &str,
) -> Option<&'a Box<dyn Provider + Sync>>
    ensures { option_map (λ p. meaning p.now) result ≡ first_with type_name.now (map (λ b. meaning b) providers.now) }
{
    for provider in providers {
        if has_type(provider, type_name) {
            return Some(provider);
        }
    }
    None
}

/// Returns the schema of a type: that of the first provider that has one.
pub fn schema_for<'a>(
    providers: &'a [Box<dyn Provider + Sync>],
    type_name: &str,
) -> Option<&'a Schema>
    ensures { option_map (λ s. s.now) result ≡ schema_in type_name.now (map (λ b. meaning b) providers.now) }
{
    match first_provider(providers, type_name) {
        Some(provider) => provider.schema(type_name),
        None => None,
    }
}

/// Returns whether a provider has a schema for a type.
fn has_type(provider: &Box<dyn Provider + Sync>, type_name: &str) -> bool
    ensures { result ≡ is_some ((meaning provider.now).schema_of type_name.now) }
{
    provider.schema(type_name).is_some()
}
