// Laws of states and their texts, proved for every state. Each function's contract is a law, and its body is empty.
ghost use Rattle.tf_state.specs.Laws.{EmptyIsValid, OutputsKeepState, PutKeepsResource, PutKeepsState, ReadIsValid, RemoveKeepsResource, RemoveKeepsState, SerialKeepsState, StateOfTextIsOne, TextIsOfOne, TextReadsAsState};

/// Bytes are the text of at most one state.
pub fn texts_are_of_one()
    ensures { TextIsOfOne }
{}

/// The text that is written for a valid state reads as that state. So two valid states with the same text are the
/// same.
#[tactic(auto, using(crate::proofs::StateLaws::text_reads_as_state, crate::proofs::StateLaws::state_of_text_is_one))]
pub fn texts_read_back()
    ensures back { TextReadsAsState }
    ensures one { StateOfTextIsOne }
{}

/// A state that is read is valid, so the text that is written for it reads as the same state.
pub fn read_states_are_valid()
    ensures { ReadIsValid }
{}

/// A valid state stays valid if a valid resource with a record is put into it, with or without one at its address
/// before, and if a resource is removed. A valid resource stays valid if a valid record is put in or one is removed.
#[tactic(auto, using(crate::proofs::Kept::put_keeps_state, crate::proofs::Kept::put_keeps_resource, crate::proofs::Kept::remove_keeps_state, crate::proofs::Kept::remove_keeps_resource))]
pub fn puts_and_removes_keep_states_valid()
    ensures resources { PutKeepsState }
    ensures records { PutKeepsResource }
    ensures left_resources { RemoveKeepsState }
    ensures left_records { RemoveKeepsResource }
{}

/// The state before anything exists is valid. A valid state stays valid with another serial, and with other outputs
/// that may be stored. So a state has a text that reads as it, if it is made from the empty state or from one that
/// was read, by setting serials and outputs, puts and removes.
#[tactic(auto, using(crate::proofs::Kept::serial_keeps_state, crate::proofs::Kept::outputs_keep_state))]
pub fn new_states_are_valid()
    ensures empty { EmptyIsValid }
    ensures serials { SerialKeepsState }
    ensures outputs { OutputsKeepState }
{}
