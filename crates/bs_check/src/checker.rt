// Whether a program keeps the rules of the language.
ghost use Rattle.std.specs.Prelude.{◌≡◌, ◌≢◌, ◌≤◌, IfErr, IfOk, None};
ghost use Rattle.bs_check.specs.Refusal.{IsRefused, IsWhole, declarations_rule, refusal};
ghost use Rattle.bs_check.specs.declared.fault.CheckFault.TheVariants.{Memory};

use crate::accepted::{Accepted, accept};
use crate::declarations::{cells_of, declares_twice, keeps_limits, kinds_of};
use crate::fault::{CheckFault, Rule};
use crate::names::Names;
use crate::numbers::ends_of;
use crate::statements::check_body;
use crate::touches::Touches;
use bs_tree::Program;
use std::alloc::Global;

/// The program with what its names are declared as, where it keeps all rules. Otherwise the least
/// statement that breaks one, and the least rule that it breaks; the declarations are statement 0.
/// `docs/program-text.md` says what the rules are.
pub fn check(alloc: Global, program: Program) -> Result<Accepted, CheckFault>
    requires { IsWhole program }
    ensures program { IfOk result (λ accepted. accepted.program ≡ program) }
    ensures chares { IfOk result (λ accepted. (1 ≤ accepted.program.chares) × (accepted.program.chares ≤ 65536)) }
    ensures ok { IfOk result (λ accepted. refusal program ≡ None) }
    ensures err { IfErr result (λ fault. fault ≢ Memory → IsRefused program fault) }
{
    let names = declared(alloc, program)?;
    let mut touches = Touches::new(alloc, names.program.names.as_slice().len())?;
    check_body(&names, &mut touches, &names.program.body, 1)?;
    let ends = ends_of(alloc, &names.program)?;
    Ok(accept(names, ends))
}

// A program whose declarations keep all rules, with what its names are declared as.
fn declared(alloc: Global, program: Program) -> Result<Names, CheckFault>
    requires { IsWhole program }
    ensures program { IfOk result (λ names. names.program ≡ program) }
    ensures ok { IfOk result (λ names. declarations_rule program ≡ None) }
    ensures err { IfErr result (λ fault. fault ≢ Memory → IsRefused program fault) }
{
    if declares_twice(alloc, &program)? {
        return Err(CheckFault::Refused(0, Rule::TwiceDeclared));
    }
    if !keeps_limits(&program) {
        return Err(CheckFault::Refused(0, Rule::Limits));
    }
    let kinds = kinds_of(alloc, &program)?;
    let cells = cells_of(program.vars.as_slice()) as u32;
    Ok(Names {
        program,
        kinds,
        cells,
    })
}
