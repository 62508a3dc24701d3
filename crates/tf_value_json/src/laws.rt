// Laws of JSON forms and of their texts, for every value and every tree: each function's contract is a law, and its body does
// nothing.
ghost use Rattle.tf_value_json.specs.Laws.{FormIsOne, ValueOfFormIsOne, FormedIsKnown, KnownHasForm, ListsHaveTheForm, ReadsForms, ReadsFormsAlone, FormReadsBack};
ghost use Rattle.tf_value_json.specs.Plain.{ReadIsSorted, TextReadsBack};

/// A known value has exactly one JSON form, and a JSON tree is the form of at most one value without sets. A value
/// with a form is known, and a list in place of a set doesn't change the form.
pub fn forms_are_one()
    ensures one_form { FormIsOne }
    ensures one_value { ValueOfFormIsOne }
    ensures known { FormedIsKnown }
    ensures formed { KnownHasForm }
    ensures lists { ListsHaveTheForm }
{}

/// A JSON tree reads as the value without sets whose form it is, and as nothing if it is no value's form. The form of
/// a known value reads back as that value, with a list for each set.
pub fn forms_read_back()
    ensures reads { ReadsForms }
    ensures reads_nothing_else { ReadsFormsAlone }
    ensures back { FormReadsBack }
{}

/// The text of a plain tree (whole numbers of 64 bits, the keys of each object strictly in byte order) reads as that
/// tree, if the tree nests no deeper than `serde_json` reads.
#[tactic(auto, using(crate::proofs::ReadsBack::text_reads_back))]
pub fn texts_read_back()
    ensures { TextReadsBack }
{}

/// If a text reads as a tree, the keys of each object in it are strictly in byte order.
#[tactic(auto, using(crate::proofs::Sorted::read_is_sorted))]
pub fn read_trees_are_sorted()
    ensures { ReadIsSorted }
{}
