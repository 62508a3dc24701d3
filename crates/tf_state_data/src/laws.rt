// Laws of puts and removes, proved for every state and resource. Each function's contract is a law, and its body is
// empty.
ghost use Rattle.tf_state_data.specs.Laws.{ResourceAddrView, ObjectIdView, PutChangesOneRecord, PutChangesOneResource, RecordView, RemoveChangesOneRecord, RemoveChangesOneResource, ResourceView, StateView};

/// A put and a remove of a resource change only what the state has at its address.
pub fn puts_and_removes_change_one_resource()
    ensures put { (new : ResourceView) (s : StateView) → PutChangesOneResource new s }
    ensures removed { (addr : ResourceAddrView) (s : StateView) → RemoveChangesOneResource addr s }
{}

/// A put and a remove of a record change only what the resource has for its object.
pub fn puts_and_removes_change_one_record()
    ensures put { (new : RecordView) (r : ResourceView) → PutChangesOneRecord new r }
    ensures removed { (id : ObjectIdView) (r : ResourceView) → RemoveChangesOneRecord id r }
{}
