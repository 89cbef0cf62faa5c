//! Laws on stored forms and stores.
ghost use Rattle.hippo_model_laws.specs.Stores.{BodyDeterminesEntry, StoredFormDeterminesEntry, StoreDeterminesHistory, DamageDeterminesPlace};

/// If the same bytes begin with the bodies of two entries that can be stored, then the two entries
/// are the same, and so are the bytes after the bodies: no body is a proper prefix of another, and
/// none has a second spelling.
pub fn body_tells_entry()
    ensures { BodyDeterminesEntry }
{}

/// Two entries that can be stored and have the same stored form are the same entry.
pub fn stored_form_tells_entry()
    ensures { StoredFormDeterminesEntry }
{}

/// Two valid histories with the same stored entries are the same history.
pub fn store_tells_history()
    ensures { StoreDeterminesHistory }
{}

/// Stored entries that are damaged at a place are not those of any valid history, and are damaged
/// at no other place.
pub fn damage_tells_place()
    ensures { DamageDeterminesPlace }
{}
