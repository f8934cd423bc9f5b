//! Keys by hand: of values that stand, that were removed, and that never were.

use pf_context::{Key, Rejection, Table, laws};
use std::test::Fail;

/// Whether a key names this number.
fn names(table: &Table<u32>, key: Key, number: Option<u32>) -> bool {
    table.get(key).copied() == number
}

/// Whether a key whose value is removed names nothing, and the next key is another one.
fn is_forgotten(table: &mut Table<u32>) -> Result<bool, Rejection<u32>> {
    let first = table.insert(10)?;
    let removed = table.remove(first);
    let second = table.insert(20)?;
    let keys = [first, second].map(|key| (key.index, key.generation));
    let is_gone = names(table, first, None)
        && table.get_mut(first).is_none()
        && table.remove(first).is_none();
    Ok(is_gone && keys == [(0, 0), (0, 1)] && removed == Some(10) && names(table, second, Some(20)))
}

#[test]
fn a_removed_key_names_nothing(rt: HostRuntime) -> Result<(), Fail> {
    let mut table = Table::new(rt.alloc());
    let is_so = is_forgotten(&mut table)?;
    assert!(rt; is_so);
    Ok(())
}

#[test]
fn keys_that_were_made_up_name_nothing(rt: HostRuntime) -> Result<(), Fail> {
    let mut table = Table::new(rt.alloc());
    table.insert(10u32)?;
    for (index, generation) in [(7, 0), (0, 1), (u32::MAX, u32::MAX)] {
        assert!(rt;
            names(&table, Key { index, generation }, None),
            "{index} {generation}"
        );
    }
    Ok(())
}

/// Whether a value is changed where it stands, beside another one.
fn is_changed(table: &mut Table<u32>) -> Result<bool, Rejection<u32>> {
    let first = table.insert(10)?;
    let second = table.insert(20)?;
    if let Some(value) = table.get_mut(first) {
        *value = 11;
    }
    Ok(names(table, first, Some(11)) && names(table, second, Some(20)) && table.len() == 2)
}

#[test]
fn a_value_is_changed_where_it_stands(rt: HostRuntime) -> Result<(), Fail> {
    let mut table = Table::new(rt.alloc());
    let is_so = is_changed(&mut table)?;
    assert!(rt; is_so);
    Ok(())
}

/// Whether a value that was out stands under its key again, changed.
fn is_put_back(table: &mut Table<u32>) -> Result<bool, Rejection<u32>> {
    let first = table.insert(10)?;
    let second = table.insert(20)?;
    let Some(value) = table.take_out(first) else {
        return Ok(false);
    };
    let is_out = names(table, first, None) && names(table, second, Some(20));
    table.put_back(first, value + 1);
    Ok(is_out && names(table, first, Some(11)) && table.len() == 2)
}

#[test]
fn a_value_that_was_out_stands_under_its_key(rt: HostRuntime) -> Result<(), Fail> {
    let mut table = Table::new(rt.alloc());
    let is_so = is_put_back(&mut table)?;
    assert!(rt; is_so);
    Ok(())
}

#[test]
fn laws_are_called(_rt: HostRuntime) {
    laws::keys_are_unique::<u32>();
    laws::past_keys_name_nothing::<u32>();
    laws::past_keys_stay_past::<u32>();
    laws::loans_change_one_value::<u32>();
    laws::next_keys_are_new::<u32>();
    laws::insertions_change_one_key::<u32>();
    laws::removals_change_one_key::<u32>();
    laws::values_come_back::<u32>();
}
