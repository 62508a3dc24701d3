//! The steps of actions.

ghost use Rattle.std.specs.Prelude.{◌≡◌};
ghost use Rattle.tf_plan_data.specs.Action.{step_of};
ghost use Rattle.tf_plan_data.specs.Fits.{is_apply, op_of};
ghost use Rattle.tf_plan_data.specs.Precedence.{is_half, kind_of};

use tf_plan_order::ActionKind;
use tf_provider_protocol::Op;
use tf_state_data::Object;
use tf_value_data::Value;

/// What an action does to an object of an instance. A requested object has each attribute of the type's schema, unknown
/// if the provider decides it. A prior object is as the state has it.
#[derive(Debug, Drop)]
pub enum Step {
    /// Creates this object. There is no current one.
    Create(Value),
    /// Changes the current object, the first, to the second, in the attributes of these names, in byte order.
    Update(Object, Value, Vec<String>),
    /// Creates this object, which replaces the one that is destroyed (`DestroyReplaced`). The names, in byte order, are
    /// those of the attributes whose changes replace the object. The list is empty if that one is tainted.
    CreateReplacement(Value, Vec<String>),
    /// Destroys the current object, which another one replaces (`CreateReplacement`).
    DestroyReplaced(Object),
    /// Destroys the current object without replacement.
    Destroy(Object),
    /// Destroys the deposed object of this key.
    DestroyDeposed(String, Object),
}

impl Step {
    /// Returns what it does, as far as the order of actions depends on it.
    pub fn kind(&self) -> ActionKind
        ensures { result ≡ kind_of (step_of self.now) }
    {
        match self {
            Step::Create(_) | Step::Update(_, _, _) | Step::CreateReplacement(_, _) =>
                ActionKind::Apply,
            Step::DestroyReplaced(_) | Step::Destroy(_) => ActionKind::Destroy,
            Step::DestroyDeposed(_, _) => ActionKind::DestroyDeposed,
        }
    }

    /// Returns the operation that a provider is asked for.
    pub fn op(&self) -> Op
        ensures { result ≡ op_of (step_of self.now) }
    {
        match self {
            Step::Create(_) | Step::CreateReplacement(_, _) => Op::Create,
            Step::Update(_, _, _) => Op::Update,
            Step::DestroyReplaced(_) | Step::Destroy(_) | Step::DestroyDeposed(_, _) => Op::Destroy,
        }
    }

    /// Checks whether it creates or updates an object.
    pub fn is_apply(&self) -> bool
        ensures { result ≡ is_apply (step_of self.now) }
    {
        matches!(
            self,
            Step::Create(_) | Step::Update(_, _, _) | Step::CreateReplacement(_, _)
        )
    }

    /// Checks whether it is half of a replace.
    pub fn is_half(&self) -> bool
        ensures { result ≡ is_half (step_of self.now) }
    {
        matches!(
            self,
            Step::CreateReplacement(_, _) | Step::DestroyReplaced(_)
        )
    }
}
