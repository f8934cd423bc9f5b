//! Laws of tables. These functions compute nothing: their clauses are the statements.

ghost use Rattle.std.specs.Prelude.{◌≡◌, ◌+◌, ◌^◌, ◌<◌, All, IsSome, List, None, Some, length};
ghost use Rattle.pf_context.specs.declared.key.Key.{Key};
ghost use Rattle.pf_context.specs.declared.table.Slot.{Slot};
ghost use Rattle.pf_context.specs.Table.{HasFree, IsHistory, IsNextKey, IsPast, KeepsOthers, KeepsPast, KeepsSlots, value_at, value_count, with_new_value, with_value, with_value_out, without_value};

/// A key names one value at most, and a value has one key: of the keys of a slot, one at most names
/// a value.
pub fn keys_are_unique<T>()
    ensures value { (slots : List (Slot T)) (key : Key) (a b : T)
        → value_at slots key ≡ Some a → value_at slots key ≡ Some b → a ≡ b }
    ensures key { (slots : List (Slot T)) (key other : Key) → key.index ≡ other.index
        → IsSome (value_at slots key) → IsSome (value_at slots other) → key ≡ other }
{}

/// A past key names nothing.
pub fn past_keys_name_nothing<T>()
    ensures { (slots : List (Slot T)) (key : Key) → IsPast slots key → value_at slots key ≡ None }
{}

/// A key that is past once, as it is when its value is removed, is past ever after, and names
/// nothing, whatever is done to the table.
pub fn past_keys_stay_past<T>()
    ensures past { (slots : List (Slot T)) (later : List (List (Slot T))) (key : Key)
        → IsPast slots key → IsHistory slots later → All (λ next. IsPast next key) later }
    ensures nothing { (slots : List (Slot T)) (later : List (List (Slot T))) (key : Key)
        → IsPast slots key → IsHistory slots later → All (λ next. value_at next key ≡ None) later }
{}

/// After a loan the key names what was left there, and no other key is touched.
pub fn loans_change_one_value<T>()
    ensures value { (slots : List (Slot T)) (key : Key) (left : T)
        → IsSome (value_at slots key) → value_at (with_value slots key left) key ≡ Some left }
    ensures others { (slots : List (Slot T)) (key : Key) (left : T)
        → IsSome (value_at slots key) → KeepsOthers slots (with_value slots key left) key }
    ensures still_past { (slots : List (Slot T)) (key : Key) (left : T)
        → IsSome (value_at slots key) → KeepsPast slots (with_value slots key left) }
    ensures count { (slots : List (Slot T)) (key : Key) (left : T)
        → IsSome (value_at slots key)
        → value_count (with_value slots key left) ≡ value_count slots }
{}

/// A table gives the next value one key. It named nothing before, and no value was removed under
/// it; no slot is added where one is free.
pub fn next_keys_are_new<T>()
    ensures only { (slots : List (Slot T)) (key other : Key)
        → IsNextKey slots key → IsNextKey slots other → key ≡ other }
    ensures no_value { (slots : List (Slot T)) (key : Key)
        → IsNextKey slots key → value_at slots key ≡ None }
    ensures not_past { (slots : List (Slot T)) (key : Key)
        → IsNextKey slots key → IsPast slots key → ⊥ }
    ensures no_new_slot { (slots : List (Slot T)) (key : Key)
        → IsNextKey slots key → HasFree slots → key.index < length slots }
{}

/// After a value was put in, its key names it. No other key is touched, and no other slot.
pub fn insertions_change_one_key<T>()
    ensures value { (slots : List (Slot T)) (key : Key) (value : T)
        → IsNextKey slots key → value_at (with_new_value slots key value) key ≡ Some value }
    ensures others { (slots : List (Slot T)) (key : Key) (value : T)
        → IsNextKey slots key → KeepsOthers slots (with_new_value slots key value) key }
    ensures still_past { (slots : List (Slot T)) (key : Key) (value : T)
        → IsNextKey slots key → KeepsPast slots (with_new_value slots key value) }
    ensures slots { (slots : List (Slot T)) (key : Key) (value : T)
        → IsNextKey slots key → KeepsSlots slots (with_new_value slots key value) key.index }
    ensures count { (slots : List (Slot T)) (key : Key) (value : T)
        → IsNextKey slots key
        → value_count (with_new_value slots key value) ≡ value_count slots + 1 }
{}

/// After a value was taken out, its key is past, and its slot is free where a generation is left.
/// No other key is touched, and no other slot.
pub fn removals_change_one_key<T>()
    ensures past { (slots : List (Slot T)) (key : Key)
        → IsSome (value_at slots key) → IsPast (without_value slots key) key }
    ensures free { (slots : List (Slot T)) (key : Key)
        → IsSome (value_at slots key) → key.generation + 1 < 2 ^ 32
        → HasFree (without_value slots key) }
    ensures others { (slots : List (Slot T)) (key : Key)
        → IsSome (value_at slots key) → KeepsOthers slots (without_value slots key) key }
    ensures still_past { (slots : List (Slot T)) (key : Key)
        → IsSome (value_at slots key) → KeepsPast slots (without_value slots key) }
    ensures slots { (slots : List (Slot T)) (key : Key)
        → IsSome (value_at slots key) → KeepsSlots slots (without_value slots key) key.index }
    ensures count { (slots : List (Slot T)) (key : Key)
        → IsSome (value_at slots key)
        → value_count (without_value slots key) + 1 ≡ value_count slots }
{}

/// A value that is out leaves each other key as it was; one that is put back stands under its key,
/// as if it had been changed where it stood.
pub fn values_come_back<T>()
    ensures others { (slots : List (Slot T)) (key : Key)
        → IsSome (value_at slots key) → KeepsOthers slots (with_value_out slots key) key }
    ensures still_past { (slots : List (Slot T)) (key : Key)
        → IsSome (value_at slots key) → KeepsPast slots (with_value_out slots key) }
    ensures back { (slots : List (Slot T)) (key : Key) (value : T)
        → with_value (with_value_out slots key) key value ≡ with_value slots key value }
{}
