// What a name of a command stands for, and which words may.
ghost use Rattle.std.specs.Prelude.{◌≡◌, ◌≤◌, IfSome, map};
ghost use Rattle.std.specs.List.{list_all};
ghost use Rattle.bs_words.specs.Numbers.{number_from};
ghost use Rattle.bs_words.specs.Roles.{are_in_roles, is_in_role, is_machine};

use crate::machine::machine_word;
use bs_gen::Workload;
use bs_num::read_decimal;

/// What a name of a command stands for.
#[derive(Clone, Copy, Debug, PartialEq, Eq, Drop)]
pub enum Role {
    File,
    /// A file, or `flat:P:L` with P from 1 to 65,536 processors and a latency from 1 to 2^38.
    Machine,
    /// `ring`, `stencil` or `tree`.
    Workload,
    /// From 1 to 512 chares.
    Size,
    /// From 0 to 999,999.
    Seed,
    /// A statement, from 1 to 10,000.
    Statement,
    /// A term of a fraction, from 1 to 65,535.
    Term,
}

// There are as many names as roles, each of which may stand for its own, and behind them up to `more` machines.
pub(crate) fn in_roles(roles: &[Role], more: usize, names: &[&str]) -> bool
    ensures { result ≡ are_in_roles roles.now more (map (λ name. name.now) names.now) }
{
    match roles {
        [] => names.len() <= more && are_machines(names),
        [role, roles @ ..] => match names {
            [] => false,
            [name, names @ ..] => in_role(*role, name) && in_roles(roles, more, names),
        },
    }
}

fn are_machines(names: &[&str]) -> bool
    ensures { result ≡ list_all is_machine (map (λ name. name.now) names.now) }
{
    match names {
        [] => true,
        [name, names @ ..] => in_role(Role::Machine, name) && are_machines(names),
    }
}

fn in_role(role: Role, name: &str) -> bool
    ensures { result ≡ is_in_role role name.now }
{
    match role {
        Role::File => true,
        Role::Machine => machine_word(name).is_some(),
        Role::Workload => Workload::named(name).is_some(),
        Role::Size => number(name.as_bytes(), 1, 512).is_some(),
        Role::Seed => number(name.as_bytes(), 0, 999_999).is_some(),
        Role::Statement => number(name.as_bytes(), 1, 10_000).is_some(),
        Role::Term => number(name.as_bytes(), 1, 65_535).is_some(),
    }
}

/// A plain decimal from `low` to `high`.
pub(crate) fn number(text: &[u8], low: u64, high: u64) -> Option<u64>
    ensures value { result ≡ number_from low high text.now }
    ensures range { IfSome result (λ n. (low ≤ n) × (n ≤ high)) }
{
    match read_decimal(text, high) {
        Ok(n) if low <= n => Some(n),
        _ => None,
    }
}
