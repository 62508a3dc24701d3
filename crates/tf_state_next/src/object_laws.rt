// Laws on what is known of an instance's objects after its actions, proved for all of them: each function's contract is a
// law, and its body does nothing.
ghost use Rattle.tf_state_next.specs.ObjectLaws.{AfterIsOne, DeposedStay, DestroysCombine, KeyExists, KeyIsFree, KeyIsHex, KeyIsOne, NothingIsForgotten, OldIsDeposed, OldStays, RoomsSuffice, SavedIsCurrent};

/// States that an instance's actions give at most one resource, and that the destroys of its deposed objects may come
/// before the rest or after it.
pub fn after_is_one()
    ensures one { AfterIsOne }
    ensures combined { DestroysCombine }
{}

/// States that each object keeps a record unless a good destroy took it, that each saved object has one, and that no
/// deposed object is overwritten. The old object becomes deposed if another was saved, and stays current if nothing was
/// saved.
pub fn nothing_is_forgotten()
    ensures forgotten { NothingIsForgotten }
    ensures saved { SavedIsCurrent }
    ensures stay { DeposedStay }
    ensures deposed { OldIsDeposed }
    ensures current { OldStays }
{}

/// States that there is exactly one key for an object that becomes deposed, if there are fewer records than serials. It
/// is eight lower-case hex digits, and no object is deposed under it.
pub fn keys_are_free()
    ensures one { KeyIsOne }
    ensures exists { KeyExists }
    ensures free { KeyIsFree }
    ensures hex { KeyIsHex }
{}

/// States that space for one record of each create or update of a resource is enough.
pub fn rooms_suffice()
    ensures { RoomsSuffice }
{}
