//! Laws on plans after an apply.

ghost use Rattle.tf_laws.specs.Reapply.{Converges, NothingIsRefusedAgain, ReportsConverge, StateAfterIsAtRest, ValuedOutputsMean};
ghost use Rattle.tf_laws.specs.InstancesAtRest.{AnsweredInstancesRest, ObjectsAreSettled, UntouchedInstancesRest};
ghost use Rattle.tf_laws.specs.Known.{ExpressionsStayKnown};
ghost use Rattle.tf_laws.specs.Quiet.{QuietAppliesKeepObjects};
ghost use Rattle.tf_laws.specs.Read.{ReadHasOwnNames, ReadIsSound};
ghost use Rattle.tf_laws.specs.Rest.{NothingIsPlannedAtRest, NothingIsRefusedAtRest};
ghost use Rattle.tf_laws.specs.Twice.{ReportsSettle, SecondAppliesChangeFlags, SecondAppliesKeepObjects, SecondSerialsTell, ThirdAppliesChangeNothing, ThirdAppliesKeepRecords};

use tf_expand_keys::standing_laws::resolved_names_grow;
use tf_expr_operators::laws::known_stays_known;
use tf_plan_object::laws::objects_grow;

/// If all names have known values, so does each expression. In an instance's object each attribute is known, except those that
/// keep their prior value.
pub fn known_names_give_known_values()
    ensures expressions { ExpressionsStayKnown }
    ensures objects { ObjectsAreSettled }
{
    known_stays_known();
}

/// No change is decided for an object that was requested and answered well. If no change was decided for an object, knowing
/// more of what its block gives adds no change.
pub fn instances_rest()
    ensures answered { AnsweredInstancesRest }
    ensures untouched { UntouchedInstancesRest }
{}

/// Over resources at rest a plan has no action. There is such a plan if no instance and no output is refused.
pub fn nothing_is_planned_at_rest()
    ensures planned { NothingIsPlannedAtRest }
    ensures refused { NothingIsRefusedAtRest }
{}

/// If each action of an apply is good, the state after it is at rest, so the same configuration and variables plan no action
/// over it. That plan refuses nothing if blocks still give objects for the instances that no action created or updated, and
/// outputs have values, as they do if the apply gave each one a value.
pub fn applies_converge()
    ensures rest { StateAfterIsAtRest }
    ensures again { Converges }
    ensures reports { ReportsConverge }
    ensures refused { NothingIsRefusedAgain }
    ensures outputs { ValuedOutputsMean }
{
    known_names_give_known_values();
    resolved_names_grow();
    objects_grow();
}

/// An apply of a plan without actions adds, changes and removes no object. It updates only the dependencies and the flag
/// `create_before_destroy` in their records.
pub fn quiet_applies_keep_objects()
    ensures { QuietAppliesKeepObjects }
{}

/// After an apply that went well, a second one keeps each object and its record, except for the flag `create_before_destroy`.
/// If each output had a value, the second changes only such flags and the serial, which is one more exactly if a flag changed.
/// A third one then leaves exactly the state that the second left.
pub fn applies_settle()
    ensures objects { SecondAppliesKeepObjects }
    ensures second { SecondAppliesChangeFlags }
    ensures serials { SecondSerialsTell }
    ensures records { ThirdAppliesKeepRecords }
    ensures third { ThirdAppliesChangeNothing }
    ensures reports { ReportsSettle }
{
    known_names_give_known_values();
    resolved_names_grow();
    objects_grow();
}

/// The inputs of a plan are sound if the configuration was read, its variables have values from a file or by default, providers
/// have schemas, and the prior state is valid. In a configuration that was read, each name means one thing, and outputs are in
/// byte order.
pub fn read_configurations_fit()
    ensures sound { ReadIsSound }
    ensures names { ReadHasOwnNames }
{}
