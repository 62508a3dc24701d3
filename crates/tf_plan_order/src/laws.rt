//! Laws on the order of actions: each is the contract of a function that does nothing.

ghost use Rattle.tf_plan_order.specs.Laws.{BeforeIsTested, NoChainLeadsBack, StagesNeverFall, StageIsStrict, PairsAreThose, AcyclicIsStrict, OrderInputIsSound, NoStateLeadsBack};

/// The computable test `is_before` is true exactly in the five cases.
pub fn before_is_tested()
    ensures { BeforeIsTested }
{}

/// No chain of pairs leads back.
pub fn no_chain_leads_back()
    ensures { NoChainLeadsBack }
{}

/// No pair leads from a late destroy to a create, an update or a destroy that isn't late, nor from a create or an update
/// to a destroy that isn't late.
pub fn stages_never_fall()
    ensures { StagesNeverFall }
{}

/// Among destroys that aren't late, among creates and updates, and among late destroys, *before* is a strict order.
pub fn stage_is_strict()
    ensures { StageIsStrict }
{}

/// The list of pairs has exactly those whose first is before the second, each once.
pub fn pairs_are_those()
    ensures { PairsAreThose }
{}

/// If no resource needs itself by the configuration, the table of needs is a strict order.
pub fn acyclic_is_strict()
    ensures { AcyclicIsStrict }
{}

/// The order's input is sound if nothing needs itself by the configuration, whatever the state has stored and whatever
/// is marked.
pub fn order_input_is_sound()
    ensures { OrderInputIsSound }
{}

/// So no chain of pairs leads back, whatever the state has stored and whatever is marked.
pub fn no_state_leads_back()
    ensures { NoStateLeadsBack }
{}
