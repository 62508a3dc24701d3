//! Which of some names is first in byte order.

ghost use Rattle.std.specs.Prelude.{◌≡◌, option_map};
ghost use Rattle.tf_plan_decision.specs.Names.{sooner_name};

/// Returns the one of two names that is first in byte order.
pub(crate) fn sooner<'a>(first: Option<&'a str>, name: &'a str) -> Option<&'a str>
    ensures { option_map (λ s. s.now) result ≡ sooner_name (option_map (λ s. s.now) first.entry) name.now }
{
    match first {
        None => Some(name),
        Some(old) => { if name < old { Some(name) } else { Some(old) } }
    }
}
