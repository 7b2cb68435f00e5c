// Whether a file holds the keys of a machine and no others.
ghost use Rattle.std.specs.Prelude.{◌≡◌};
ghost use Rattle.toml.specs.View.{table_view};
ghost use Rattle.bs_machine.specs.Keys.{is_table_name, is_key_name, are_key_names, are_known_tables};

use crate::key::all;
use toml::Table;

pub(crate) fn knows_tables(root: &Table) -> bool
    ensures { result ≡ are_known_tables (table_view root.now) }
{
    for (table, value) in root.iter() {
        match value.as_table() {
            Some(members) => {
                if !names_table(table.as_str()) || !knows_keys(table.as_str(), members) {
                    return false;
                }
            }
            None => return false,
        }
    }
    true
}

fn knows_keys(table: &str, members: &Table) -> bool
    ensures { result ≡ are_key_names table.now (table_view members.now) }
{
    for (name, _value) in members.iter() {
        if !names_key(table, name.as_str()) {
            return false;
        }
    }
    true
}

fn names_table(table: &str) -> bool
    ensures { result ≡ is_table_name table.now }
{
    for key in &all() {
        if table == key.table() {
            return true;
        }
    }
    false
}

fn names_key(table: &str, name: &str) -> bool
    ensures { result ≡ is_key_name table.now name.now }
{
    for key in &all() {
        if table == key.table() && name == key.name() {
            return true;
        }
    }
    false
}
